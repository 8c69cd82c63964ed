// Readings and their levels.
ghost use Rattle.std.specs.Prelude.{◌≡◌, ℕ, ℤ, pos, ◌+ℤ◌, refl};
ghost use Rattle.counters.specs.Levels.{natural, climate_level, unmoved};

// A kind of reading gives the level that each of its readings has.
pub trait Level {
    // the level
    ghost height: { Self → ℕ };

    // The level.
    fn level(&self) -> u32
        ensures { result ≡ height self.now };
}

// A level counts from a reading's own unit.
pub trait OwnUnit: Level {
    // the reading in its own unit
    ghost own: { Self → ℤ };

    // the level of a reading of 0
    ghost zero: { ℕ };

    // The level of a reading of 0: a level less this is in the reading's own unit.
    fn zero_level() -> u32
        ensures { result ≡ zero };

    // the level is the reading moved up by that, and 0 where this is negative
    ghost moved: { (r : Self) → Self.height r ≡ natural (own r +ℤ pos zero) };
}

// A reading of the climate: the minute, and the temperature in hundredths of a degree.
#[derive(Clone, Copy)]
#[repr(C)]
pub struct ClimateReading {
    pub minute: u32,
    pub temperature: i16,
}

// A reading of the supply: its millivolts.
#[derive(Clone, Copy)]
pub struct SupplyReading {
    pub millivolts: u16,
}

impl Level for ClimateReading {
    ghost height = { λ r. climate_level r.temperature };

    fn level(&self) -> u32 {
        let above = i32::from(self.temperature) + 4_000;
        if above < 0 { 0 } else { above as u32 }
    }
}

impl OwnUnit for ClimateReading {
    ghost own = { λ r. r.temperature };

    ghost zero = { 4000 };

    ghost moved = { λ r. refl };

    fn zero_level() -> u32 {
        4_000
    }
}

impl Level for SupplyReading {
    ghost height = { λ r. r.millivolts };

    fn level(&self) -> u32 {
        u32::from(self.millivolts)
    }
}

impl OwnUnit for SupplyReading {
    ghost own = { λ r. pos r.millivolts };

    ghost zero = { 0 };

    ghost moved = { λ r. unmoved r.millivolts };

    fn zero_level() -> u32 {
        0
    }
}
