// Why a log refuses its ends or a point.
ghost use Rattle.std.specs.Prelude.{Some};
ghost use Rattle.logs.specs.Words.{said_of_ends, said_of_point};

use std::fmt;

// What is wrong with the ends of a log.
#[derive(Clone, Copy, PartialEq, Eq, Debug)]
pub enum BadEnds {
    // the span is 0 or above 1,000,000
    Span,
    // the first value is above the last
    Order,
}

// What is wrong with a point, in the order in which it is checked.
#[derive(Clone, Copy, PartialEq, Eq, Debug)]
pub enum Misfit {
    // its argument is not strictly between the ends
    NotInner,
    // its argument is in the log
    Known,
    // the log has 256 points
    Full,
    // its value is below the point before or above the point after
    OutOfOrder,
}

impl fmt::Display for BadEnds {
    ghost output = { λ bad. Some (said_of_ends bad) };

    fn fmt<W: fmt::Write>(&self, f: &mut fmt::Formatter<W>) -> fmt::Result {
        match self {
            BadEnds::Span => write!(f, "the span must be from 1 to 1,000,000"),
            BadEnds::Order => write!(f, "the first value is above the last"),
        }
    }
}

impl fmt::Display for Misfit {
    ghost output = { λ misfit. Some (said_of_point misfit) };

    fn fmt<W: fmt::Write>(&self, f: &mut fmt::Formatter<W>) -> fmt::Result {
        match self {
            Misfit::NotInner => write!(f, "the argument must lie strictly between 0 and the span"),
            Misfit::Known => write!(f, "the argument has its answer already"),
            Misfit::Full => write!(f, "the log is full, with 256 points"),
            Misfit::OutOfOrder => write!(
                f,
                "the value must lie between those of the answers on either side"
            ),
        }
    }
}
