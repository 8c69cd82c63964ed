// The kept table's place: a row of 2 to 1,000,001 values of its own that never falls.
ghost use Rattle.std.specs.Prelude.{◌≤◌, length};
ghost use Rattle.loggers.specs.Meaning.{RowNeverFalls};

use std::convert::AsSlice;

mod keeping;

// A table logger that keeps its row of values.
#[derive(Drop)]
pub struct KeptTable<V: AsSlice<u32>> {
    pub(crate) values: V,
    ghost long: { 2 ≤ length (V.items values) },
    ghost short: { length (V.items values) ≤ 1000001 },
    ghost rising: { RowNeverFalls (V.items values) },
}
