// The job sheet.
ghost use Rattle.std.specs.Prelude.{◌≡◌, ◌++◌, length, drop};
ghost use Rattle.sheet.specs.Printing.{sheet_prints, sheet_denied};
ghost use Rattle.exports.specs.Replies.{Replied, end_of};

use super::replies::{Reply, tell};
use sheet::run_sheet;

// Does what a sheet asks for, and prints into a row; the number of bytes written is both limits.
#[unsafe(no_mangle)]
pub extern "C" fn sealed_sheet(sheet: &[u8], out: &mut [u8]) -> Reply
    ensures { Replied (sheet_denied (length sheet.now) (length out.old)) result (λ s. (s ≡ end_of (length (sheet_prints sheet.now))) × (out.new ≡ sheet_prints sheet.now ++ drop s.low out.old)) (out.new ≡ out.old) }
{
    tell(run_sheet(sheet, out).map(|bytes| Reply {
        denial: 0,
        answers: 0,
        low: bytes as u64,
        high: bytes as u64,
    }))
}
