// Gaps: two neighbouring points of a log.
ghost use Rattle.std.specs.Prelude.{◌≡◌};
ghost use Rattle.plans.specs.Gaps.{width_of, middle, first_inside};

use tables::Point;

#[derive(Clone, Copy)]
pub(crate) struct Gap {
    pub(crate) from: Point,
    pub(crate) to: Point,
}

impl Gap {
    // The inner arguments times the rise.
    pub(crate) fn width(&self) -> u64
        ensures { result ≡ width_of self.now }
    {
        let inner = self.to.at.saturating_sub(self.from.at).saturating_sub(1);
        let rise = self.to.value.saturating_sub(self.from.value);
        u64::from(inner) * u64::from(rise)
    }

    // The argument halfway, rounded down.
    pub(crate) fn middle(&self) -> u32
        ensures { result ≡ middle self.now }
    {
        self.from.at + self.to.at.saturating_sub(self.from.at) / 2
    }

    // The first argument inside, if there is one.
    pub(crate) fn first_inside(&self) -> Option<u32>
        ensures { result ≡ first_inside self.now }
    {
        let last = self.to.at.saturating_sub(1);
        (self.from.at < last).then(|| self.from.at + 1)
    }
}
