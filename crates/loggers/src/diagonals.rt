// The diagonal: a logger whose table rises by the same at every step.
ghost use Rattle.std.specs.Prelude.{◌≡◌, ◌*◌, ◌^◌, ◌<◌, ◌≤◌};
ghost use Rattle.std.proofs.Common.{mul-le-mul_left};
ghost use Rattle.tables.specs.Table.{diagonal};
ghost use Rattle.denials.specs.Told.{told};
ghost use Rattle.denials.specs.Checks.{Decided};
ghost use Rattle.loggers.specs.Makings.{diagonal_denied};

use crate::asking::Logger;
use crate::spans::check_span;
use denials::Denial;

#[derive(Clone, Copy)]
pub struct Diagonal {
    span: u32,
    rise: u32,
    ghost long: { 1 ≤ span },
    ghost short: { span ≤ 1000000 },
    ghost steep: { 1 ≤ rise },
    ghost fits: { rise * span < 2 ^ 32 },
}

impl Diagonal {
    // The diagonal of this span and rise, or a denial.
    pub fn new(span: u32, rise: u32) -> Result<Diagonal, Denial>
        ensures { Decided told (diagonal_denied span rise) result (λ d. (d.span ≡ span) × (d.rise ≡ rise)) (Unit {0}) }
    {
        check_span(span as usize)?;
        if rise == 0 || rise as u64 * span as u64 > u32::MAX as u64 {
            return Err(Denial::Rise);
        }
        Ok(Diagonal { span, rise })
    }

    // How much the table rises at every step.
    pub fn rise(&self) -> u32
        ensures { result ≡ self.now.rise }
    {
        self.rise // at every step
    }
}

impl Logger for Diagonal {
    ghost table = { λ d. diagonal d.rise };

    ghost extent = { λ d. d.span };

    ghost sound = { λ d. (d.long, d.short, λ i j _ le _. mul-le-mul_left d.rise le) };

    fn span(&self) -> u32 {
        self.span
    }

    fn first(&self) -> u32 {
        0
    }

    fn last(&self) -> u32 {
        self.rise * self.span
    }

    fn count(&self, x: u32) -> Option<u32> {
        (x <= self.span).then(|| self.rise * x)
    }
}
