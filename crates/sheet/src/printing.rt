// Printing the reply to a line.
ghost use Rattle.std.specs.Prelude.{◌≡◌, ◌^◌, ◌<◌, ◌≤◌, length};
ghost use Rattle.words.specs.Writing.{begun};
ghost use Rattle.sheet.specs.Printing.{letter_of, shown};
ghost use Rattle.sheet.specs.Replying.{replied};

use super::reports::Report;
use denials::Denial;
use plans::Way;
use words::write_line;

// The letter of a plan's lines.
fn letter_of(way: Way) -> u8
    ensures { result ≡ letter_of way }
{
    match way {
        Way::EqualSpacing => b'e',
        Way::WidestRectangle => b'w',
    }
}

// Writes the reply to a line into the first places of a row, and gives how many bytes that takes.
pub(crate) fn print_reply(reply: Result<Option<Report>, Denial>, line: u64, out: &mut [u8]) -> usize
    requires few { line < 10 ^ 4 }
    requires room { 87 ≤ length out.old }
    ensures end { result ≡ length (shown line (replied reply)) }
    ensures row { out.new ≡ begun (shown line (replied reply)) out.old }
{
    let written = match reply {
        Ok(None) => return 0,
        Ok(Some(r)) => {
            let numbers = [r.span as u64, r.asked as u64, r.low, r.high, r.high - r.low];
            write_line(letter_of(r.way), &numbers, out, 0)
        }
        Err(denial) => write_line(b'?', &[line, denial.number() as u64], out, 0),
    };
    written.unwrap()
}
