// Numbers with a decimal point.
ghost use Rattle.std.specs.Prelude.{◌≡◌, ◌<◌, ◌^◌, Some};
ghost use Rattle.certificate.specs.Units.{sign, with_places};

use std::fmt;

// A whole number of the smallest part that is shown, as with two places after the point −1234 is −12.34.
#[derive(Clone, Copy)]
pub struct Decimal<const PLACES: u32> {
    pub parts: i64,
    ghost some: { 0 < PLACES },
    ghost fits: { 10 ^ PLACES < 2 ^ 64 },
}

impl<const PLACES: u32> fmt::Display for Decimal<PLACES> {
    ghost output = { λ d. Some (with_places PLACES d.parts) };

    fn fmt<W: fmt::Write>(&self, f: &mut fmt::Formatter<W>) -> fmt::Result {
        let sign = sign_of(self.parts);
        let size = self.parts.unsigned_abs();
        let unit = 10u64.pow(PLACES);
        let whole = size / unit;
        let fraction = size % unit;
        let width = PLACES as usize;
        write!(f, "{sign}{whole}.{fraction:0width$}")
    }
}

// A minus sign where a number is negative.
fn sign_of(number: i64) -> &'static str
    ensures { result.now ≡ sign number }
{
    if number < 0 { "−" } else { "" }
}
