// The form of a line, as the contract of a function.
ghost use Rattle.jobs.specs.Jobs.{LinesAreExact};

// A line asks for a job exactly when it is the line that asks for it, byte for byte.
pub fn lines_are_exact()
    ensures { LinesAreExact }
{}
