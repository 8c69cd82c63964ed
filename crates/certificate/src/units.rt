// The kinds of readings that are certified, and amounts in their units.
ghost use Rattle.std.specs.Prelude.{◌≡◌, ℕ, ℤ, List, Some};
ghost use Rattle.std.specs.Fmt.{DisplaysOnOk};
ghost use Rattle.certificate.specs.declared.jobs.Kind.{Kind as Named};
ghost use Rattle.certificate.specs.declared.jobs.Kind.TheVariants.{Climate, Supply};
ghost use Rattle.certificate.specs.Amounts.{of_level, in_degrees, in_volts};

use super::decimals::Decimal;
use super::jobs::Kind;
use counters::{ClimateReading, SupplyReading};
use records::Written;
use std::fmt;
use std::marker::PhantomData;

// A kind of reading that is certified: its name, and how people write an amount in its unit.
pub trait Certified: Written {
    // an amount in the kind's own unit
    ghost shown: { ℤ → List ℕ };

    // its name
    ghost KIND: { Named };

    const KIND: Kind;

    // Writes an amount in the kind's own unit.
    fn write_amount<W: fmt::Write>(value: i64, f: &mut fmt::Formatter<W>) -> fmt::Result
        ensures { DisplaysOnOk W.write_str_gives f.old result (Some (shown value)) f.new };
}

impl Certified for ClimateReading {
    ghost shown = { in_degrees };

    ghost KIND = { Climate };

    const KIND: Kind = Kind::Climate;

    #[tactic(auto, using(crate::proofs::Places::hundredths))]
    fn write_amount<W: fmt::Write>(value: i64, f: &mut fmt::Formatter<W>) -> fmt::Result {
        let degrees = Decimal::<2> { parts: value };
        write!(f, "{degrees} °C")
    }
}

impl Certified for SupplyReading {
    ghost shown = { in_volts };

    ghost KIND = { Supply };

    const KIND: Kind = Kind::Supply;

    #[tactic(auto, using(crate::proofs::Places::thousandths))]
    fn write_amount<W: fmt::Write>(value: i64, f: &mut fmt::Formatter<W>) -> fmt::Result {
        let volts = Decimal::<3> { parts: value };
        write!(f, "{volts} V")
    }
}

// An amount in the own unit of a kind of reading.
#[derive(Clone, Copy)]
pub struct Amount<T> {
    pub value: i64,
    pub kind: PhantomData<T>,
}

impl<T: Certified> Amount<T> {
    // So many of the kind's own unit.
    pub fn new(value: i64) -> Amount<T>
        ensures { result.value ≡ value }
    {
        Amount {
            value,
            kind: PhantomData,
        }
    }

    // What a level stands for.
    pub fn of_level(level: u32) -> Amount<T>
        ensures { result.value ≡ of_level T.OwnUnit.zero level }
    {
        Amount::new(i64::from(level) - i64::from(T::zero_level()))
    }
}

impl<T: Certified> fmt::Display for Amount<T> {
    ghost output = { λ amount. Some (T.shown amount.value) };

    fn fmt<W: fmt::Write>(&self, f: &mut fmt::Formatter<W>) -> fmt::Result {
        T::write_amount(self.value, f)
    }
}
