// What is to be certified: the kind of readings, the span and the number of questions.
ghost use Rattle.std.specs.Prelude.{Some};
ghost use Rattle.certificate.specs.Jobs.{name_of, misuse_says, SaysKind, SaysJob, SaysWords};

use records::whole;
use std::error::Error;
use std::fmt;
use std::str::FromStr;

#[derive(Clone, Copy, PartialEq, Eq, Debug)]
pub enum Kind {
    Climate,
    Supply,
}

#[derive(Clone, Copy, PartialEq, Eq, Debug)]
pub struct Job {
    pub kind: Kind,
    pub span: u32,
    pub questions: u32,
}

// Why words are no job.
#[derive(Clone, Copy, PartialEq, Eq, Debug)]
pub enum Misuse {
    // there are not three words
    Words,
    // the first is neither climate nor supply
    Kind,
    // the second is no whole number up to 4,294,967,295
    Span,
    // the third is none
    Questions,
}

impl fmt::Display for Kind {
    ghost output = { λ kind. Some (name_of kind) };

    fn fmt<W: fmt::Write>(&self, f: &mut fmt::Formatter<W>) -> fmt::Result {
        f.write_str(match self {
            Kind::Climate => "climate",
            Kind::Supply => "supply",
        })
    }
}

impl FromStr for Kind {
    type Err = Misuse;

    ghost from_str_gives = { SaysKind };

    fn from_str(word: &str) -> Result<Kind, Misuse> {
        match word {
            "climate" => Ok(Kind::Climate),
            "supply" => Ok(Kind::Supply),
            _ => Err(Misuse::Kind),
        }
    }
}

impl fmt::Display for Misuse {
    ghost output = { λ misuse. Some (misuse_says misuse) };

    fn fmt<W: fmt::Write>(&self, f: &mut fmt::Formatter<W>) -> fmt::Result {
        f.write_str(match self {
            Misuse::Words =>
                "a kind, a span and a number of questions are needed, and nothing else",
            Misuse::Kind => "the kind is neither climate nor supply",
            Misuse::Span => "the span is no whole number up to 4,294,967,295",
            Misuse::Questions => "the number of questions is no whole number up to 4,294,967,295",
        })
    }
}

impl Error for Misuse {}

// Reads the three words of a job.
pub(crate) fn read_job(words: &[&str]) -> Result<Job, Misuse>
    ensures { SaysWords words.now result }
{
    match words {
        [kind, span, questions] => job_of(kind, span, questions),
        _ => Err(Misuse::Words),
    }
}

// The job of these three words.
fn job_of(kind: &str, span: &str, questions: &str) -> Result<Job, Misuse>
    ensures { SaysJob kind.now span.now questions.now result }
{
    Ok(Job {
        kind: kind.parse()?,
        span: whole(span).ok_or(Misuse::Span)?,
        questions: whole(questions).ok_or(Misuse::Questions)?,
    })
}
