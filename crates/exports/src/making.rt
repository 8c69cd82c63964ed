// Strips and counters over lent rows.
ghost use Rattle.std.specs.Prelude.{◌≡◌, length};
ghost use Rattle.counters.specs.Held.{readings_of};
ghost use Rattle.counters.specs.Makings.{counter_denied};
ghost use Rattle.denials.specs.Checks.{Decided};
ghost use Rattle.denials.specs.Told.{told};
ghost use Rattle.strips.specs.Held.{words_of};
ghost use Rattle.strips.specs.Makings.{strip_denied};

use counters::{ClimateReading, Counter};
use denials::Denial;
use strips::DoorStrip;

// The strip of these words.
pub(crate) fn strip_over(words: &[u64], span: u32) -> Result<DoorStrip<'_>, Denial>
    ensures { Decided told (strip_denied words.now span) result (λ strip. (words_of strip ≡ words.now) × (strip.span ≡ span)) (Unit {0}) }
{
    let mut strip = DoorStrip::new();
    strip.fill(words, span)?;
    Ok(strip)
}

// The counter of these climate readings.
pub(crate) fn counter_over(
    readings: &[ClimateReading],
    span: u32,
) -> Result<Counter<'_, ClimateReading>, Denial>
    ensures { Decided told (counter_denied span (length readings.now)) result (λ counter. (readings_of counter ≡ readings.now) × (counter.span ≡ span)) (Unit {0}) }
{
    let mut counter = Counter::new();
    counter.fill(readings, span)?;
    Ok(counter)
}
