// A logger that is a diagonal or a kept table.
ghost use Rattle.loggers.specs.Choosing.{chosen_table, chosen_extent, chosen_sound};

use super::asking::Logger;
use super::diagonals::Diagonal;
use super::kept_table::KeptTable;
use std::convert::AsSlice;

#[derive(Drop)]
pub enum Chosen<V: AsSlice<u32>> {
    Diagonal(Diagonal),
    Table(KeptTable<V>),
}

impl<V: AsSlice<u32>> Logger for Chosen<V> {
    ghost table = { chosen_table };

    ghost extent = { chosen_extent };

    ghost sound = { chosen_sound };

    fn span(&self) -> u32 {
        match self {
            Chosen::Diagonal(diagonal) => diagonal.span(),
            Chosen::Table(table) => table.span(),
        }
    }

    fn first(&self) -> u32 {
        match self {
            Chosen::Diagonal(diagonal) => diagonal.first(),
            Chosen::Table(table) => table.first(),
        }
    }

    fn last(&self) -> u32 {
        match self {
            Chosen::Diagonal(diagonal) => diagonal.last(),
            Chosen::Table(table) => table.last(),
        }
    }

    fn count(&self, x: u32) -> Option<u32> {
        match self {
            Chosen::Diagonal(diagonal) => diagonal.count(x),
            Chosen::Table(table) => table.count(x),
        }
    }
}
