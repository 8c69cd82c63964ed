// What a logger is: the table that it means, and what it answers when asked.
ghost use Rattle.std.specs.Prelude.{◌≡◌, ℕ};
ghost use Rattle.tables.specs.Table.{Table};
ghost use Rattle.loggers.specs.Meaning.{Sound, counted};

// An implementation gives the table and the span that it means, with the proof that they are sound.
pub trait Logger {
    // the table
    ghost table: { Self → Table };

    // its span
    ghost extent: { Self → ℕ };

    // the span is from 1 to 1,000,000, and the table never falls
    ghost sound: { (l : Self) → Sound (table l) (extent l) };

    // The span.
    fn span(&self) -> u32
        ensures { result ≡ extent self.now };

    // The first end: the value at 0.
    fn first(&self) -> u32
        ensures { result ≡ table self.now 0 };

    // The last end: the value at the span.
    fn last(&self) -> u32
        ensures { result ≡ table self.now (extent self.now) };

    // The value at x, or none where x is above the span.
    fn count(&self, x: u32) -> Option<u32>
        ensures { result ≡ counted (table self.now) (extent self.now) x };
}
