// The kept table: its making, and what it answers.
ghost use Rattle.std.specs.Prelude.{◌≡◌, ◌-◌, length};
ghost use Rattle.std.proofs.Common.{arith};
ghost use Rattle.denials.specs.Checks.{Decided};
ghost use Rattle.denials.specs.Told.{told};
ghost use Rattle.loggers.specs.Makings.{table_denied};
ghost use Rattle.loggers.specs.Meaning.{row_table};

use super::KeptTable;
use crate::accepting::accept;
use crate::asking::Logger;
use denials::Denial;
use std::convert::AsSlice;

impl<V: AsSlice<u32> + Drop> KeptTable<V> {
    // Keeps the values, or denies them as a table logger does.
    pub fn new(values: V) -> Result<KeptTable<V>, Denial>
        ensures { Decided told (table_denied (V.items values)) result (λ t. t.values ≡ values) (Unit {0}) }
    {
        accept(values.as_slice())?;
        Ok(KeptTable { values })
    }

    // How many values there are.
    pub fn len(&self) -> usize
        ensures { result ≡ length (V.items self.now.values) }
    {
        self.values.as_slice().len()
    }
}

impl<V: AsSlice<u32>> Logger for KeptTable<V> {
    ghost table = { λ l. row_table (V.items l.values) };

    ghost extent = { λ l. length (V.items l.values) - 1 };

    ghost sound = { λ l. (omega arith, omega arith, λ i j _ le within. l.rising i j le (omega arith)) };

    fn span(&self) -> u32 {
        (self.values.as_slice().len() - 1) as u32
    }

    fn first(&self) -> u32 {
        self.values.as_slice()[0]
    }

    fn last(&self) -> u32 {
        let values = self.values.as_slice();
        values[values.len() - 1]
    }

    fn count(&self, x: u32) -> Option<u32> {
        self.values.as_slice().get(x as usize).copied()
    }
}
