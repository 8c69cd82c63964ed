// Trials of the job sheet: sheets that are run, and compared byte for byte with what they should print.
#![tactic(auto)]

ghost use Rattle.std.specs.Prelude.{◌≡◌, true};
ghost use Rattle.sheet.specs.Printing.{sheet_prints};

use sheet::run_sheet;

// A row of dots, to print into.
pub const DOTS: [u8; 36_864] = [b'.'; 36_864];

// Whether a sheet prints just these bytes, and leaves the rest of its row as it was.
pub fn prints(sheet: &[u8], expected: &[u8]) -> bool
    ensures { result ≡ true → sheet_prints sheet.now ≡ expected.now }
{
    let mut out = DOTS;
    let Ok(n) = run_sheet(sheet, &mut out) else {
        return false;
    };
    &out[..n] == expected && &out[n..] == &DOTS[n..]
}

#[cfg(test)]
mod tests;
