// A session: the logger that is set, and what each line does.
ghost use Rattle.std.specs.Prelude.{◌≡◌};
ghost use Rattle.denials.specs.Checks.{Decided};
ghost use Rattle.ask.specs.declared.sessions.Refusal.TheVariants.{Denied as Denies, Unclear};
ghost use Rattle.ask.specs.Setting.{held, nothing};
ghost use Rattle.ask.specs.Entering.{why, stands, run_stands, Does, RanOn};

use super::lines::{Fault, Line};
use super::runs::{Report, run_on};
use denials::Denial;
use loggers::{Chosen, Diagonal, KeptTable};
use plans::Way;

// The logger that is set, where one is.
#[derive(Drop)]
pub struct Session {
    chosen: Option<Chosen<Vec<u32>>>,
}

// What an accepted line did.
#[derive(Clone, Drop)]
pub enum Done {
    // a diagonal of this span and rise is set
    Diagonal(u32, u32),
    // a table of so many values is set
    Table(usize),
    // a plan was run
    Ran(Way, Report),
}

// Why a line was refused.
#[derive(Clone, Copy)]
pub enum Refusal<'a> {
    Denied(Denial),
    // no logger is set
    NoLogger,
    // the line cannot be read
    Unclear(Fault<'a>),
}

impl From<Denial> for Refusal<'_> {
    ghost from_gives = { λ denial refusal. refusal ≡ Denies denial };

    fn from(denial: Denial) -> Self {
        Refusal::Denied(denial)
    }
}

impl<'a> From<Fault<'a>> for Refusal<'a> {
    ghost from_gives = { λ fault refusal. refusal ≡ Unclear fault };

    fn from(fault: Fault<'a>) -> Self {
        Refusal::Unclear(fault)
    }
}

impl Session {
    // No logger is set.
    pub fn new() -> Session
        ensures { held result.chosen ≡ nothing }
    {
        Session { chosen: None }
    }

    // Enters what reading a line gave. A refused line changes nothing.
    pub fn enter<'a>(&mut self, line: Result<Line, Fault<'a>>) -> Result<Done, Refusal<'a>>
        ensures { Decided why (stands (held self.old.chosen) line.entry) result (Does (held self.old.chosen) line.entry (held self.new.chosen)) (self.new ≡ self.old) }
    {
        match line? {
            Line::Diagonal(span, rise) => {
                let diagonal = Diagonal::new(span, rise)?;
                self.chosen = Some(Chosen::Diagonal(diagonal));
                Ok(Done::Diagonal(span, rise))
            }
            Line::Table(values) => {
                let table = KeptTable::new(values)?;
                let count = table.len();
                self.chosen = Some(Chosen::Table(table));
                Ok(Done::Table(count))
            }
            Line::Run(way, questions) => Ok(Done::Ran(way, self.run(way, questions)?)),
        }
    }

    // Runs a plan on the logger that is set.
    fn run<'a>(&self, way: Way, questions: u32) -> Result<Report, Refusal<'a>>
        ensures { Decided why (run_stands (held self.now.chosen) questions) result (RanOn (held self.now.chosen) way questions) (Unit {0}) }
    {
        let Some(logger) = &self.chosen else {
            return Err(Refusal::NoLogger);
        };
        Ok(run_on(logger, way, questions)?)
    }
}
