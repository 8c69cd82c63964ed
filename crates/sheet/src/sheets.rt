// The sheet call.
ghost use Rattle.std.specs.Prelude.{◌≡◌, ◌≤◌, ◌++◌, length, drop, IfOk};
ghost use Rattle.denials.specs.Checks.{Decided};
ghost use Rattle.denials.specs.Told.{told};
ghost use Rattle.words.specs.Numbers.{ReadsBack};
ghost use Rattle.words.specs.Writing.{begun};
ghost use Rattle.sheet.specs.Laws.{SheetsAreCalls};
ghost use Rattle.sheet.specs.Printing.{sheet_prints, sheet_denied};

use super::entering::enter;
use super::printing::print_reply;
use denials::Denial;
use jobs::job_at;
use words::Cursor;

// Does what the lines of a sheet ask for, one after the other, and writes what they print into the first places
// of a row; gives the number of bytes written. The rest of the row is kept.
#[tactic(auto, using(crate::proofs::Calling::sheets_are_calls))]
pub fn run_sheet(sheet: &[u8], out: &mut [u8]) -> Result<usize, Denial>
    ensures decided { Decided told (sheet_denied (length sheet.now) (length out.old)) result (λ n. (n ≡ length (sheet_prints sheet.now)) × (out.new ≡ sheet_prints sheet.now ++ drop n out.old)) (out.new ≡ out.old) }
    ensures within { IfOk result (λ n. n ≤ length out.new) }
    ensures calls { SheetsAreCalls }
    ensures back { ReadsBack }
{
    check_room(sheet.len(), out.len())?;
    Ok(print_lines(sheet, out))
}

// Denied where a sheet has too many bytes, or a row too few places to print into.
fn check_room(bytes: usize, room: usize) -> Result<(), Denial>
    ensures { Decided told (sheet_denied bytes room) result (λ _. (bytes ≤ 2048) × (36864 ≤ room)) (Unit {0}) }
{
    if bytes > 2_048 {
        return Err(Denial::Form(0));
    }
    if room < 36_864 {
        return Err(Denial::Short(36_864));
    }
    Ok(())
}

// Enters the lines one by one, and prints the reply to each.
fn print_lines(sheet: &[u8], out: &mut [u8]) -> usize
    requires short { length sheet.now ≤ 2048 }
    requires room { 36864 ≤ length out.old }
    ensures end { result ≡ length (sheet_prints sheet.now) }
    ensures within { result ≤ length out.new }
    ensures row { out.new ≡ begun (sheet_prints sheet.now) out.old }
{
    let mut set = None;
    // goes along with the lines, so that a word keeps its place on the whole sheet
    let mut cursor = Cursor { sheet, at: 0 };
    let mut written = 0;
    for (index, line) in sheet.split_inclusive(|byte| *byte == b'\n').enumerate() {
        let number = index as u64 + 1;
        let reply = enter(&mut set, job_at(cursor), number);
        written += print_reply(reply, number, &mut out[written..]);
        cursor = cursor.skip(line.len());
    }
    written
}
