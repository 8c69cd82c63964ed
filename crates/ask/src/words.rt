// What is printed.
use super::answers::Answer;
use super::lines::Fault;
use super::runs::Report;
use super::sessions::{Done, Refusal};
use denials::Denial;
use logs::Limits;
use std::fmt;

// The questions in their order, then the limits.
impl fmt::Display for Report {
    fn fmt<W: fmt::Write>(&self, f: &mut fmt::Formatter<W>) -> fmt::Result {
        for (i, Answer { at, count }) in self.answers.iter().enumerate() {
            let number = i + 1;
            match count {
                Some(value) => writeln!(f, "  {number}: at {at} the logger counts {value}")?,
                None => writeln!(f, "  {number}: at {at} the logger counts nothing")?,
            }
        }
        let Limits { low, high } = self.limits;
        let width = self.limits.width();
        let asked = self.asked;
        let promise = self.promise;
        writeln!(f, "  low     {low}")?;
        writeln!(f, "  high    {high}")?;
        writeln!(f, "  width   {width}")?;
        writeln!(f, "  asked   {asked}")?;
        write!(
            f,
            "  promise {promise} (between the same ends no plan with as many questions can promise a smaller width)"
        )
    }
}

// What an accepted line did.
impl fmt::Display for Done {
    fn fmt<W: fmt::Write>(&self, f: &mut fmt::Formatter<W>) -> fmt::Result {
        match self {
            Done::Diagonal(span, rise) => write!(
                f,
                "set a diagonal of span {span} and rise {rise}"
            ),
            Done::Table(count) => write!(f, "set a table of {count} values"),
            Done::Ran(way, report) => write!(f, "ran {way}\n{report}"),
        }
    }
}

// Why a line cannot be read.
impl fmt::Display for Fault<'_> {
    fn fmt<W: fmt::Write>(&self, f: &mut fmt::Formatter<W>) -> fmt::Result {
        match *self {
            Fault::Unknown(word) => write!(
                f,
                "{word:?} is none of diagonal, table, spacing and rectangle"
            ),
            Fault::NoNumber(word) => write!(f, "{word:?} is no whole number up to 4,294,967,295"),
            Fault::Count { needed, found } => write!(
                f,
                "numbers needed after the first word: {needed}, found: {found}"
            ),
        }
    }
}

// Why a line was refused.
impl fmt::Display for Refusal<'_> {
    fn fmt<W: fmt::Write>(&self, f: &mut fmt::Formatter<W>) -> fmt::Result {
        match *self {
            Refusal::Denied(denial) => match denial {
                Denial::Falls(place) => write!(f, "{denial}, at place {place}"),
                _ => write!(f, "{denial}"),
            },
            Refusal::NoLogger => write!(f, "refused: no logger is set yet"),
            Refusal::Unclear(fault) => write!(f, "refused: {fault}"),
        }
    }
}
