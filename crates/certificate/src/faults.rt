// The lines that are no readings, as they are told.
ghost use Rattle.std.specs.Prelude.{Some};
ghost use Rattle.std.specs.Fmt.{DisplaysOnOk};
ghost use Rattle.certificate.specs.Faults.{lines_say, more_says, faults_say};

use records::BadLine;
use std::fmt;

// The lines that are no readings: ten of them by name, and how many more.
#[derive(Clone, Copy)]
pub struct BadLines<'a> {
    pub lines: &'a [BadLine],
}

impl fmt::Display for BadLines<'_> {
    ghost output = { λ bad. Some (faults_say bad.lines.now) };

    fn fmt<W: fmt::Write>(&self, f: &mut fmt::Formatter<W>) -> fmt::Result {
        let named = self.lines.len().min(10);
        write_lines(&self.lines[..named], f)?;
        write_more(self.lines.len() - named, f)?;
        write!(f, "nothing is certified")
    }
}

// Each line with its fault.
fn write_lines<W: fmt::Write>(lines: &[BadLine], f: &mut fmt::Formatter<W>) -> fmt::Result
    ensures { DisplaysOnOk W.write_str_gives f.old result (Some (lines_say lines.now)) f.new }
{
    for bad in lines {
        writeln!(f, "{bad}")?;
    }
    Ok(())
}

// How many more there are, where there are some.
fn write_more<W: fmt::Write>(more: usize, f: &mut fmt::Formatter<W>) -> fmt::Result
    ensures { DisplaysOnOk W.write_str_gives f.old result (Some (more_says more)) f.new }
{
    if more == 0 {
        return Ok(());
    }
    writeln!(f, "and {more} more")
}
