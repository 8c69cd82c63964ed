// Printed lines, written into a row.
ghost use Rattle.std.specs.Prelude.{◌≡◌, ◌+◌, ◌*◌, ◌≤◌, true, length, if◌then◌else◌, Some, None};
ghost use Rattle.words.specs.Writing.{overwritten, begun, spaced, line_bytes, all_short, has_room};

use crate::digits::write_digits;

// The largest number of sixteen digits.
const LARGEST: u64 = 9_999_999_999_999_999;

// Whether each of the numbers has at most sixteen digits.
fn all_short(numbers: &[u64]) -> bool
    ensures { result ≡ all_short numbers.now }
{
    numbers.iter().all(|n| *n <= LARGEST)
}

// Whether a row has room for a line of these numbers.
fn has_room(numbers: &[u64], out: &[u8]) -> bool
    ensures { result ≡ has_room 0 numbers.now out.now }
{
    out.len() >= 2 && numbers.len() <= (out.len() - 2) / 17 && all_short(numbers)
}

// Writes each number after a space into the first places of a row, and gives how many bytes that takes. A lent row
// with the end beside it, since the library takes no memory from a heap.
fn write_spaced(numbers: &[u64], out: &mut [u8]) -> usize
    requires short { all_short numbers.now ≡ true }
    requires fits { 17 * length numbers.now ≤ length out.old }
    ensures end { result ≡ length (spaced numbers.now) }
    ensures within { result ≤ 17 * length numbers.now }
    ensures row { out.new ≡ begun (spaced numbers.now) out.old }
{
    let mut end = 0;
    for n in numbers {
        out[end] = b' ';
        end += 1 + write_digits(*n, &mut out[end + 1..]);
    }
    end
}

// Writes a line into the first places of a row, and gives how many bytes it has;
// where the row has no room for it, or a number has more than 16 digits, nothing is written.
fn write_first(letter: u8, numbers: &[u64], out: &mut [u8]) -> Option<usize>
    ensures end { result ≡ (if has_room 0 numbers.now out.old then Some (length (line_bytes letter numbers.now)) else None) }
    ensures row { out.new ≡ (if has_room 0 numbers.now out.old then begun (line_bytes letter numbers.now) out.old else out.old) }
{
    if !has_room(numbers, out) {
        return None;
    }
    out[0] = letter;
    let end = 1 + write_spaced(numbers, &mut out[1..]);
    out[end] = b'\n';
    Some(end + 1)
}

// Writes a line into a row from the place `at` on, and gives the place after it;
// where the row has no room for it, or a number has more than 16 digits, nothing is written.
pub fn write_line(letter: u8, numbers: &[u64], out: &mut [u8], at: usize) -> Option<usize>
    ensures end { result ≡ (if has_room at numbers.now out.old then Some (at + length (line_bytes letter numbers.now)) else None) }
    ensures row { out.new ≡ (if has_room at numbers.now out.old then overwritten at (line_bytes letter numbers.now) out.old else out.old) }
{
    if at > out.len() {
        return None;
    }
    let count = write_first(letter, numbers, &mut out[at..])?;
    Some(at + count)
}
