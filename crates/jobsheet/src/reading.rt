// Reading a sheet.
ghost use Rattle.std.specs.Prelude.{◌≤◌, length, IfOk};

use std::io;
use std::io::Read;

// Fills a row from its beginning with the bytes of an input, until either ends, and gives the bytes that were read.
// A loop with a count, since what `read_to_end` promises does not tell how many bytes it read.
pub fn read_up_to<'a>(input: &mut impl Read, row: &'a mut [u8]) -> io::Result<&'a [u8]>
    ensures { IfOk result (λ read. length read.now ≤ length row.old) }
{
    let mut count = 0;
    while count < row.len() {
        let got = input.read(&mut row[count..])?;
        if got == 0 {
            break;
        }
        count += got;
    }
    Ok(&row[..count])
}
