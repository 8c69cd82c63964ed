// The table logger: a place for a table of a lent row of values, which can be filled anew, as a kept table cannot.
ghost use Rattle.std.specs.Prelude.{◌≡◌, ◌-◌, [], ◌∷◌, length};
ghost use Rattle.std.proofs.Common.{arith};
ghost use Rattle.denials.specs.Told.{told};
ghost use Rattle.denials.specs.Checks.{Decided};
ghost use Rattle.loggers.specs.Meaning.{row_table};
ghost use Rattle.loggers.specs.Makings.{table_denied};
ghost use Rattle.loggers.specs.Held.{row_of};

use crate::asking::Logger;
use crate::kept_table::KeptTable;
use denials::Denial;

#[derive(Drop)]
pub struct TableLogger<'a> {
    table: KeptTable<&'a [u32]>,
}

impl<'a> TableLogger<'a> {
    // A new place: span 1 and values 0.
    pub fn new() -> TableLogger<'a>
        ensures { row_of result ≡ 0 ∷ 0 ∷ [] }
    {
        TableLogger {
            table: KeptTable { values: &[0, 0] },
        }
    }

    // Fills the place with the logger that reads these values; on a denial the place stays as it was.
    pub fn fill(&mut self, values: &'a [u32]) -> Result<(), Denial>
        ensures { Decided told (table_denied values.now) result (λ _. row_of self.new ≡ values.now) (self.new ≡ self.old) }
    {
        self.table = KeptTable::new(values)?;
        Ok(())
    }
}

impl<'a> Logger for TableLogger<'a> {
    ghost table = { λ l. row_table (row_of l) };

    ghost extent = { λ l. length (row_of l) - 1 };

    ghost sound = { λ l. (omega arith, omega arith, λ i j _ le within. l.table.rising i j le (omega arith)) };

    fn span(&self) -> u32 {
        self.table.span()
    }

    fn first(&self) -> u32 {
        self.table.first()
    }

    fn last(&self) -> u32 {
        self.table.last()
    }

    fn count(&self, x: u32) -> Option<u32> {
        self.table.count(x)
    }
}
