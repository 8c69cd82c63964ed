// The calls on an open readout as one type, what they give, and why they are refused.
ghost use Rattle.std.specs.Prelude.{◌≡◌};
ghost use Rattle.readout.specs.declared.events.Refusal.TheVariants.{Denied, Back};

use super::tickets::{Returned, Ticket};
use denials::Denial;

// A call on a readout.
pub enum Event {
    // take a ticket for this argument
    Take(u32),
    // answer the ticket with this value
    Answer(Ticket, u32),
    // withdraw the ticket
    Withdraw(Ticket),
    // tell the limits
    Limits,
}

// What an accepted call gave.
pub enum Outcome {
    // a ticket
    Given(Ticket),
    // the answer is in the log
    Answered,
    // the ticket is withdrawn
    Withdrawn,
    // the limits so far
    Limited(Summary),
}

// Why a call did nothing.
pub enum Refusal {
    // take was denied
    Denied(Denial),
    // an answer or a withdrawal was denied, and the ticket comes back
    Back(Returned),
}

impl From<Denial> for Refusal {
    ghost from_gives = { λ denial refusal. refusal ≡ Denied denial };

    fn from(denial: Denial) -> Refusal {
        Refusal::Denied(denial)
    }
}

impl From<Returned> for Refusal {
    ghost from_gives = { λ returned refusal. refusal ≡ Back returned };

    fn from(returned: Returned) -> Refusal {
        Refusal::Back(returned)
    }
}

// The limits of the sum, and the number of answers that they rest on. Users read all three by name.
#[derive(Clone, Copy)]
pub struct Summary {
    pub low: u64,
    pub high: u64,
    pub answers: u32,
}
