// What every table's making checks: the length of its row, and that the row never falls.
ghost use Rattle.std.specs.Prelude.{◌≡◌, ◌≤◌, ◌↔◌, length, is_some, None};
ghost use Rattle.denials.specs.Checks.{Decided};
ghost use Rattle.denials.specs.Told.{told};
ghost use Rattle.loggers.specs.Makings.{first_fall, table_denied};
ghost use Rattle.loggers.specs.Meaning.{RowNeverFalls};

use crate::spans::check_span;
use denials::Denial;

// Whether a table may have these values.
pub(crate) fn accept(values: &[u32]) -> Result<(), Denial>
    ensures { Decided told (table_denied values.now) result (λ _. (2 ≤ length values.now) × (length values.now ≤ 1000001) × RowNeverFalls values.now) (Unit {0}) }
{
    check_span(values.len().saturating_sub(1))?;
    if let Some(place) = first_fall(values) {
        return Err(Denial::Falls(place));
    }
    Ok(())
}

// The first place whose value is lower than the one before; none where the row never falls.
fn first_fall(values: &[u32]) -> Option<u64>
    ensures place { result ≡ first_fall values.now }
    ensures never { (result ≡ None) ↔ RowNeverFalls values.now }
{
    if !falls(values) {
        return None;
    }
    values
        .array_windows::<2>()
        .position(|[before, now]| now < before)
        .map(|place| place as u64 + 1)
}

// Whether a value is lower than the one before. Goes through the whole row, so that a processor takes several values at once;
// `any` and `is_sorted`, which leave at the first fall, take three times as long on a row that has none.
fn falls(values: &[u32]) -> bool
    ensures { result ≡ is_some (first_fall values.now) }
{
    values
        .array_windows::<2>()
        .fold(false, |found, [before, now]| found | (now < before))
}
