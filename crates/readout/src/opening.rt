// How a readout comes about: a new place, and an opening that fills it.
ghost use Rattle.std.specs.Prelude.{◌≡◌};
ghost use Rattle.std.specs.Option.{option_map};
ghost use Rattle.std.specs.Result.{result_err};
ghost use Rattle.denials.specs.Checks.{Decided};
ghost use Rattle.denials.specs.Told.{told};
ghost use Rattle.readout.specs.Calls.{opened, open_denied};
ghost use Rattle.readout.specs.Views.{view};

use super::readouts::Readout;
use denials::Denial;
use logs::Log;

impl Readout {
    // A new place: span 1 and values 0, no question left, no ticket out, mark 0.
    pub fn new() -> Readout
        ensures { view result ≡ opened 1 0 0 0 0 }
    {
        Readout {
            log: Log::new(),
            left: 0,
            mark: 0,
            out: None,
        }
    }

    // Fills the place: only the ends are known, and all questions are left. Denied with 1, 2 or 3.
    pub fn open(
        &mut self,
        span: u32,
        first: u32,
        last: u32,
        budget: u32,
        mark: u16,
    ) -> Result<(), Denial>
        ensures { Decided told (option_map told (open_denied span first last budget)) result (λ _. view self.new ≡ opened span first last budget mark) (self.new ≡ self.old) }
    {
        check_opening(span, first, last, budget)?;
        // the log's own checks are among those passed
        self.log.restart(span, first, last).unwrap();
        self.left = budget;
        self.mark = mark;
        self.out = None;
        Ok(())
    }
}

// The first check of an opening that fails: the log's own two, and the budget, before anything changes.
fn check_opening(span: u32, first: u32, last: u32, budget: u32) -> Result<(), Denial>
    ensures { result_err result ≡ open_denied span first last budget }
{
    if span == 0 || span > 1_000_000 {
        return Err(Denial::Span);
    }
    if first > last {
        return Err(Denial::Ends);
    }
    if budget > 254 || budget > span - 1 {
        return Err(Denial::Budget);
    }
    Ok(())
}
