// What is printed.
use super::lines::Fault;
use super::notes::{Done, Refusal, Summary};
use logs::Limits;
use std::fmt;
use tables::Point;

impl fmt::Display for Done {
    fn fmt<W: fmt::Write>(&self, f: &mut fmt::Formatter<W>) -> fmt::Result {
        match self {
            Done::Opened { span, first, last } => {
                write!(f, "span {span}, values from {first} to {last}")
            }
            Done::Taken(Point { at, value }) => write!(f, "{value} at {at}"),
        }
    }
}

impl fmt::Display for Refusal<'_> {
    fn fmt<W: fmt::Write>(&self, f: &mut fmt::Formatter<W>) -> fmt::Result {
        match self {
            Refusal::Ends(bad) => write!(f, "{bad}"),
            Refusal::OpenedBefore => write!(f, "the span and the end values are known already"),
            Refusal::NotOpened => write!(f, "the span and the two end values come first"),
            Refusal::Point(misfit) => write!(f, "{misfit}"),
            Refusal::Unclear(fault) => write!(f, "{fault}"),
        }
    }
}

impl fmt::Display for Summary {
    fn fmt<W: fmt::Write>(&self, f: &mut fmt::Formatter<W>) -> fmt::Result {
        let Summary {
            limits: Limits { low, high },
            answers,
            promise,
        } = *self;
        let width = self.limits.width();
        writeln!(f, "low     {low}")?;
        writeln!(f, "high    {high}")?;
        writeln!(f, "width   {width}")?;
        writeln!(f, "answers {answers}")?;
        write!(
            f,
            "promise {promise} (no plan with as many answers can promise a smaller width)"
        )
    }
}

impl fmt::Display for Fault<'_> {
    fn fmt<W: fmt::Write>(&self, f: &mut fmt::Formatter<W>) -> fmt::Result {
        match self {
            Fault::NoNumber(word) => {
                write!(f, "{word:?} is no whole number up to 4,294,967,295")
            }
            Fault::Count(count) => {
                write!(
                    f,
                    "{count} numbers, where an answer has two and the ends have three"
                )
            }
        }
    }
}
