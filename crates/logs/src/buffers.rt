// The tables of a log, written into a lent row of numbers.
ghost use Rattle.std.specs.Prelude.{◌≡◌, length};
ghost use Rattle.denials.specs.Checks.{Decided};
ghost use Rattle.denials.specs.Told.{told};
ghost use Rattle.tables.specs.Log.{span_of, low_table, high_table};
ghost use Rattle.tables.specs.Table.{Table};
ghost use Rattle.logs.specs.Buffers.{written, too_short, Draws};
ghost use Rattle.logs.specs.Points.{points};

use super::logs::Log;
use denials::Denial;

impl Log {
    // Writes the low table into the first places of a row; the rest is kept.
    pub fn write_low(&self, out: &mut [u32]) -> Result<(), Denial>
        ensures { Decided told (too_short (span_of (points self.now)) (length out.old)) result (λ _. out.new ≡ written (low_table (points self.now)) (span_of (points self.now)) out.old) (out.new ≡ out.old) }
    {
        self.write(out, |before, _| before)
    }

    // Writes the high table into the first places of a row; the rest is kept.
    pub fn write_high(&self, out: &mut [u32]) -> Result<(), Denial>
        ensures { Decided told (too_short (span_of (points self.now)) (length out.old)) result (λ _. out.new ≡ written (high_table (points self.now)) (span_of (points self.now)) out.old) (out.new ≡ out.old) }
    {
        self.write(out, |_, after| after)
    }

    // Each point's value goes to its place, and into a gap what `inside` makes of the values on either side.
    fn write<F: Fn(u32, u32) -> u32>(&self, out: &mut [u32], inside: F) -> Result<(), Denial>
        requires { F.IsAlwaysCallable inside }
        ensures { (t : Table) → Draws (F.post inside) t (points self.now) → Decided told (too_short (span_of (points self.now)) (length out.old)) result (λ _. out.new ≡ written t (span_of (points self.now)) out.old) (out.new ≡ out.old) }
    {
        let needed = self.span() as usize + 1;
        if out.len() < needed {
            return Err(Denial::Short(needed as u64));
        }
        for &[p, q] in self.points().array_windows::<2>() {
            let (from, to) = (p.at as usize, q.at as usize);
            out[from] = p.value;
            out[from + 1..to].fill(inside(p.value, q.value));
        }
        out[needed - 1] = self.last();
        Ok(())
    }
}
