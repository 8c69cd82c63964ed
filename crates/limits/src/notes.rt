// The answers so far, and what each line does to them.
ghost use Rattle.std.specs.Prelude.{◌≡◌, None, Ok};
ghost use Rattle.limits.specs.Noted.{known, said, kept, Summed};
ghost use Rattle.limits.specs.declared.notes.Refusal.TheVariants as refusals;

use super::lines::{Fault, Line};
use logs::{BadEnds, Limits, Log, Misfit};
use tables::Point;

// A log, once the ends are known.
#[derive(Drop)]
pub struct Notes {
    pub log: Option<Log>,
}

// What a line led to.
#[derive(Clone, Copy, PartialEq, Eq, Debug)]
pub enum Done {
    Opened { span: u32, first: u32, last: u32 },
    Taken(Point),
}

// Why a line led to nothing.
#[derive(Clone, Copy, PartialEq, Eq, Debug)]
pub enum Refusal<'a> {
    Ends(BadEnds),
    OpenedBefore,
    NotOpened,
    Point(Misfit),
    // the line cannot be read
    Unclear(Fault<'a>),
}

// What the answers give in the end.
#[derive(Clone, Copy, PartialEq, Eq, Debug)]
pub struct Summary {
    pub limits: Limits,
    pub answers: usize,
    pub promise: u64,
}

impl Notes {
    pub fn new() -> Notes
        ensures { known result ≡ None }
    {
        Notes { log: None }
    }

    // Enters what reading a line gave. A refused line changes nothing.
    pub fn enter<'a>(&mut self, line: Result<Line, Fault<'a>>) -> Result<Done, Refusal<'a>>
        ensures said { result ≡ said (known self.old) line.entry }
        ensures kept { known self.new ≡ kept (known self.old) result }
    {
        match line? {
            Line::Ends { span, first, last } => self.start(span, first, last),
            Line::Answer(point) => self.take_in(point),
        }
    }

    fn start<'a>(&mut self, span: u32, first: u32, last: u32) -> Result<Done, Refusal<'a>>
        ensures said { result ≡ said (known self.old) (Ok (Line.Ends span first last)) }
        ensures kept { known self.new ≡ kept (known self.old) result }
    {
        if self.log.is_some() {
            return Err(Refusal::OpenedBefore);
        }
        let mut log = Log::new();
        log.restart(span, first, last)?;
        self.log = Some(log);
        Ok(Done::Opened { span, first, last })
    }

    fn take_in<'a>(&mut self, point: Point) -> Result<Done, Refusal<'a>>
        ensures said { result ≡ said (known self.old) (Ok (Line.Answer point)) }
        ensures kept { known self.new ≡ kept (known self.old) result }
    {
        let Some(log) = &mut self.log else {
            return Err(Refusal::NotOpened);
        };
        log.insert(point)?;
        Ok(Done::Taken(point))
    }

    // The limits that the answers set, where the ends are known.
    pub fn summary(&self) -> Option<Summary>
        ensures { Summed (known self.now) result }
    {
        let log = self.log.as_ref()?;
        Some(Summary {
            limits: log.limits(),
            answers: log.answers(),
            promise: log.promise(),
        })
    }
}

impl From<BadEnds> for Refusal<'_> {
    ghost from_gives = { λ bad refusal. refusal ≡ refusals.Ends bad };

    fn from(bad: BadEnds) -> Self {
        Refusal::Ends(bad)
    }
}

impl From<Misfit> for Refusal<'_> {
    ghost from_gives = { λ misfit refusal. refusal ≡ refusals.Point misfit };

    fn from(misfit: Misfit) -> Self {
        Refusal::Point(misfit)
    }
}

impl<'a> From<Fault<'a>> for Refusal<'a> {
    ghost from_gives = { λ fault refusal. refusal ≡ refusals.Unclear fault };

    fn from(fault: Fault<'a>) -> Self {
        Refusal::Unclear(fault)
    }
}
