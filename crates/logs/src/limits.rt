// The limits of a sum.
ghost use Rattle.std.specs.Prelude.{◌≡◌, ◌-◌};

// Every sum of an agreeing table lies from `low` to `high`.
#[derive(Clone, Copy, PartialEq, Eq, Debug)]
pub struct Limits {
    pub low: u64,
    pub high: u64,
}

impl Limits {
    // How far apart the limits are.
    pub fn width(&self) -> u64
        ensures { result ≡ self.now.high - self.now.low }
    {
        self.high.saturating_sub(self.low)
    }
}
