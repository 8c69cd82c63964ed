// The check of a span, which every making begins with.
ghost use Rattle.std.specs.Prelude.{◌≤◌};
ghost use Rattle.denials.specs.Checks.{Decided};
ghost use Rattle.denials.specs.Told.{told};
ghost use Rattle.loggers.specs.Makings.{span_denied};

use denials::Denial;

// Denies a span that no logger has.
pub fn check_span(span: usize) -> Result<(), Denial>
    ensures { Decided told (span_denied span) result (λ _. (1 ≤ span) × (span ≤ 1000000)) (Unit {0}) }
{
    if span == 0 || span > 1_000_000 {
        return Err(Denial::Span);
    }
    Ok(())
}
