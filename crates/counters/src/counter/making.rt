// The counter: its making, and what it answers.
ghost use Rattle.std.specs.Prelude.{◌≡◌, [], length};
ghost use Rattle.denials.specs.Told.{told};
ghost use Rattle.denials.specs.Checks.{Decided};
ghost use Rattle.counters.specs.Counting.{counter_table, never_falls};
ghost use Rattle.counters.specs.Makings.{counter_denied};
ghost use Rattle.counters.specs.Held.{readings_of};

use super::Counter;
use crate::counting::count_up_to;
use crate::levels::Level;
use denials::Denial;
use loggers::{Logger, check_span};

impl<'a, T> Counter<'a, T> {
    // A new place: span 1 and no readings.
    pub fn new() -> Counter<'a, T>
        ensures { (readings_of result ≡ []) × (result.span ≡ 1) }
    {
        Counter {
            readings: &[],
            span: 1,
        }
    }

    // Fills the place with the counter of these readings; on a denial the place stays as it was.
    pub fn fill(&mut self, readings: &'a [T], span: u32) -> Result<(), Denial>
        ensures { Decided told (counter_denied span (length readings.now)) result (λ _. (readings_of self.new ≡ readings.now) × (self.new.span ≡ span)) (self.new ≡ self.old) }
    {
        check_span(span as usize)?;
        if readings.len() > 1_000_000 {
            return Err(Denial::Readings);
        }
        *self = Counter { readings, span };
        Ok(())
    }
}

impl<'a, T: Level> Logger for Counter<'a, T> {
    ghost table = { λ l. counter_table T.Level.height (readings_of l) };

    ghost extent = { λ l. l.span };

    ghost sound = { λ l. (l.long, l.short, never_falls T.Level.height (readings_of l) l.span) };

    fn span(&self) -> u32 {
        self.span
    }

    fn first(&self) -> u32 {
        count_up_to(self.readings, 0) as u32
    }

    fn last(&self) -> u32 {
        count_up_to(self.readings, self.span) as u32
    }

    fn count(&self, x: u32) -> Option<u32> {
        (x <= self.span).then(|| count_up_to(self.readings, x) as u32)
    }
}
