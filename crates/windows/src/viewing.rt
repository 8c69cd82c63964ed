// The window: a part of another logger, from one argument to another.
ghost use Rattle.std.specs.Prelude.{◌≡◌, ◌-◌};
ghost use Rattle.denials.specs.Checks.{Decided};
ghost use Rattle.denials.specs.Told.{told};
ghost use Rattle.windows.specs.Meaning.{windowed, bad_ends, beginning, ending, window_denied};
ghost use Rattle.windows.specs.Soundness.{window_sound};

use super::values::value_at;
use denials::Denial;
use loggers::Logger;

#[derive(Drop)]
pub struct Window<L> {
    inner: L,
    from: u32,
    to: u32,
}

// Whether no window of a logger of this span has these ends.
fn bad_ends(span: u32, from: u32, to: u32) -> bool
    ensures { result ≡ bad_ends span from to }
{
    to <= from || to > span
}

impl<L: Logger> Window<L> {
    // Whether a window of this logger may have these ends.
    pub fn check(inner: &L, from: u32, to: u32) -> Result<(), Denial>
        ensures { Decided told (window_denied (L.Logger.extent inner.now) from to) result (λ _. Unit {0}) (Unit {0}) }
    {
        if bad_ends(inner.span(), from, to) {
            return Err(Denial::Window);
        }
        Ok(())
    }

    // The window of this logger with these ends; where they do not fit it shows the whole logger.
    pub fn new(inner: L, from: u32, to: u32) -> Window<L>
        ensures { (result.inner ≡ inner) × (result.from ≡ from) × (result.to ≡ to) }
    {
        Window { inner, from, to }
    }

    // The logger behind the window.
    pub fn inner(&self) -> &L
        ensures { result.now ≡ self.now.inner }
    {
        &self.inner
    }

    // Where the window begins in the logger behind it.
    pub fn beginning(&self) -> u32
        ensures { result ≡ beginning (L.Logger.extent self.now.inner) self.now.from self.now.to }
    {
        if bad_ends(self.inner.span(), self.from, self.to) {
            0
        } else {
            self.from
        }
    }

    // Where it ends there.
    pub fn ending(&self) -> u32
        ensures { result ≡ ending (L.Logger.extent self.now.inner) self.now.from self.now.to }
    {
        let span = self.inner.span();
        if bad_ends(span, self.from, self.to) {
            span
        } else {
            self.to
        }
    }
}

impl<L: Logger> Logger for Window<L> {
    ghost table = { λ l. windowed (L.Logger.table l.inner) (beginning (L.Logger.extent l.inner) l.from l.to) };

    ghost extent = { λ l. ending (L.Logger.extent l.inner) l.from l.to - beginning (L.Logger.extent l.inner) l.from l.to };

    ghost sound = { λ l. window_sound (L.Logger.table l.inner) (L.Logger.extent l.inner) l.from l.to (L.Logger.sound l.inner) };

    fn span(&self) -> u32 {
        self.ending() - self.beginning()
    }

    fn first(&self) -> u32 {
        value_at(&self.inner, self.beginning())
    }

    fn last(&self) -> u32 {
        value_at(&self.inner, self.ending())
    }

    fn count(&self, x: u32) -> Option<u32> {
        if x > self.span() {
            return None;
        }
        self.inner.count(self.beginning() + x)
    }
}
