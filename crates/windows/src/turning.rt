// The turned logger: another logger, end for end.
ghost use Rattle.std.specs.Prelude.{◌≡◌};
ghost use Rattle.windows.specs.Meaning.{turned};
ghost use Rattle.windows.specs.Soundness.{turned_sound};

use super::values::rise_from;
use loggers::Logger;

#[derive(Drop)]
pub struct Turned<L> {
    inner: L,
}

impl<L: Logger> Turned<L> {
    // This logger turned.
    pub fn new(inner: L) -> Turned<L>
        ensures { result.inner ≡ inner }
    {
        Turned { inner }
    }

    // The logger that was turned.
    pub fn inner(&self) -> &L
        ensures { result.now ≡ self.now.inner }
    {
        &self.inner
    }
}

impl<L: Logger> Logger for Turned<L> {
    ghost table = { λ l. turned (L.Logger.table l.inner) (L.Logger.extent l.inner) };

    ghost extent = { λ l. L.Logger.extent l.inner };

    ghost sound = { λ l. turned_sound (L.Logger.table l.inner) (L.Logger.extent l.inner) (L.Logger.sound l.inner) };

    fn span(&self) -> u32 {
        self.inner.span()
    }

    fn first(&self) -> u32 {
        0
    }

    fn last(&self) -> u32 {
        rise_from(&self.inner, 0)
    }

    fn count(&self, x: u32) -> Option<u32> {
        let span = self.inner.span();
        (x <= span).then(|| rise_from(&self.inner, span - x))
    }
}
