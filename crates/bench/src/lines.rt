// The line to a logger, and the guard that puts it to sleep.
ghost use Rattle.std.specs.Prelude.{◌≡◌, false};

// The line record: the receiver's supply follows it.
#[derive(Clone, Copy)]
pub struct Line {
    pub awake: bool,
}

impl Line {
    // A line that sleeps.
    pub fn asleep() -> Line
        ensures { result.awake ≡ false }
    {
        Line { awake: false }
    }
}

// Watches over a line that may be awake: at its end the line sleeps.
pub(crate) struct Watch<'a> {
    pub(crate) line: &'a mut Line,
}

impl Drop for Watch<'_> {
    fn drop(self)
        ensures { self.exit.0.now.awake ≡ false }
    {
        self.line.awake = false;
        let Watch { line: _ } = self;
    }
}
