// Worked figures: numbers that can be checked by hand, derived from the definitions.
#![tactic(auto)]

ghost use Rattle.figures.specs.Figures.{FiguresAreRight};

// Every figure of the row comes out of the definitions as stated.
pub fn figures_are_right()
    ensures { FiguresAreRight }
{}
