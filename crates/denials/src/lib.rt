// Denials: why a call did nothing. Every call of the library that can refuse says so by one of these.
#![tactic(auto)]

ghost use Rattle.std.specs.Prelude.{◌≡◌, Some};
ghost use Rattle.denials.specs.Told.{told};
ghost use Rattle.denials.specs.Words.{cause_of, said};

use std::fmt;

#[derive(Clone, Copy, PartialEq, Eq, Debug)]
pub enum Denial {
    // 1: the span is 0 or above 1,000,000
    Span,
    // 2: the first end is above the last
    Ends,
    // 3: the budget is above 254, or above the span less 1
    Budget,
    // 4: a ticket is out
    TicketOut,
    // 5: the argument is not strictly between the ends
    NotInner,
    // 6: the argument is in the log
    Known,
    // 7: no question is left
    NoneLeft,
    // 8: no ticket is out, or this is not the one
    NotThisTicket,
    // 9: the value is below the lower or above the upper neighbour
    OutOfOrder,
    // 10: a buffer is shorter than this
    Short(u64),
    // 11: a window whose first end is not below its last, or whose last is above the span
    Window,
    // 12: the rise is 0, or the diagonal would pass 4,294,967,295
    Rise,
    // 13: a sheet, or this line of one, is not of the form
    Form(u64),
    // 14: the value at this place is lower than the one before
    Falls(u64),
    // 15: above 1,000,000 readings, or fewer strip bits than the span
    Readings,
    // 16: the line was awake at the start
    LineAwake,
}

impl Denial {
    // The number by which users know the denial.
    pub fn number(&self) -> u8
        ensures { result ≡ (told self.now).0 }
    {
        match self {
            Denial::Span => 1,
            Denial::Ends => 2,
            Denial::Budget => 3,
            Denial::TicketOut => 4,
            Denial::NotInner => 5,
            Denial::Known => 6,
            Denial::NoneLeft => 7,
            Denial::NotThisTicket => 8,
            Denial::OutOfOrder => 9,
            Denial::Short(_) => 10,
            Denial::Window => 11,
            Denial::Rise => 12,
            Denial::Form(_) => 13,
            Denial::Falls(_) => 14,
            Denial::Readings => 15,
            Denial::LineAwake => 16,
        }
    }

    // What the denial says, in words.
    fn cause(&self) -> &'static str
        ensures { result.now ≡ cause_of self.now }
    {
        match self {
            Denial::Span => "the span is 0 or above 1,000,000",
            Denial::Ends => "the first end is above the last",
            Denial::Budget => "the budget is above 254 or above the span less 1",
            Denial::TicketOut => "a ticket is out",
            Denial::NotInner => "the argument is not strictly between the ends",
            Denial::Known => "the argument is in the log",
            Denial::NoneLeft => "no question is left",
            Denial::NotThisTicket => "no ticket is out, or this is not the one",
            Denial::OutOfOrder => "the value is below the lower or above the upper neighbour",
            Denial::Short(_) => "the buffer is too short",
            Denial::Window => "the window does not lie within the span",
            Denial::Rise => "the rise is 0 or too steep for the span",
            Denial::Form(_) => "the line is not of the form",
            Denial::Falls(_) => "a value is lower than the one before",
            Denial::Readings => "too many readings, or fewer strip bits than the span",
            Denial::LineAwake => "the line is awake",
        }
    }
}

impl fmt::Display for Denial {
    ghost output = { λ d. Some (said d) };

    fn fmt<W: fmt::Write>(&self, f: &mut fmt::Formatter<W>) -> fmt::Result {
        let number = self.number();
        let cause = self.cause();
        write!(f, "denied ({number}): {cause}")
    }
}
