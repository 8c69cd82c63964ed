// The law of pasts, as the contract of a function, so that the crate does not stand without its proof.
ghost use Rattle.readout.specs.Past.{History};

// After any row of calls on an open readout, denied ones included: what is counted, left and out adds up to the budget.
pub fn pasts_are_lawful()
    ensures { History }
{}
