// Where the lines of a sheet end.
ghost use Rattle.std.specs.Prelude.{◌≡◌, ◌+◌, length};
ghost use Rattle.words.specs.Borrowed.{rest};
ghost use Rattle.jobs.specs.Lines.{line_of};

use words::Cursor;

// The place at which the line that begins at a place ends: that of its byte 10, or the sheet's end.
pub fn line_end(cursor: Cursor) -> usize
    ensures { result ≡ cursor.entry.at + length (line_of (rest cursor.entry)) }
{
    let rest = cursor.rest();
    cursor.at + rest.iter().position(|b| *b == b'\n').unwrap_or(rest.len())
}
