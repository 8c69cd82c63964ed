// The general theorems, each as the contract of a function, so that no crate stands without its proof.
ghost use Rattle.tables.specs.Bench.{Bench, Optimum};
ghost use Rattle.tables.specs.Figures.{FiguresAreRight};
ghost use Rattle.tables.specs.Theorems.{WidthIsGaps, LimitsAreSharp, TablesOfLog, LeastIsLeast, DiagonalFloor, RunExists, RunIsUnique, SameRun, LawfulAsksAll, SpacingIsLawful, SpacingAsksStops, SpacingOnDiagonal, SpacingOnAnyTable, SteepFloor, NoPlanPromisesLess};

// High minus low is the sum over the gaps of inner arguments times rise.
pub fn width_is_gaps()
    ensures { WidthIsGaps }
{}

// A number lies within the limits exactly when some agreeing table sums to it.
pub fn limits_are_sharp()
    ensures { LimitsAreSharp }
{}

// Low and high table never fall, agree with their log, and sum to the limits.
pub fn tables_of_log()
    ensures { TablesOfLog }
{}

// The least width is the least over all cuts of the span into positive lengths, and reached.
pub fn least_is_least()
    ensures { LeastIsLeast }
{}

// On the diagonal no log is narrower than its rise times the least width, nor on any table as steep.
pub fn diagonal_floor()
    ensures diagonal { DiagonalFloor }
    ensures steep { SteepFloor }
{}

// A run exists and is unique, and a table that agrees with the log it leaves gets the same run.
pub fn runs_are_determined()
    ensures exists { RunExists }
    ensures unique { RunIsUnique }
    ensures same { SameRun }
{}

// A lawful plan asks all its questions, each inner and none twice.
pub fn lawful_asks_all()
    ensures { LawfulAsksAll }
{}

// Equal spacing is lawful, asks its stops in order, and how wide a log it leaves.
pub fn spacing_is_even()
    ensures lawful { SpacingIsLawful }
    ensures asks { SpacingAsksStops }
    ensures diagonal { SpacingOnDiagonal }
    ensures any { SpacingOnAnyTable }
{}

// What a plan's run on the diagonal shows of every other logger, and which plan is best.
pub fn bench_is_fair()
    ensures bench { Bench }
    ensures optimum { Optimum }
{}

// Whatever the plan, some table between the same ends leaves it at least what the least width promises.
pub fn no_plan_promises_less()
    ensures { NoPlanPromisesLess }
{}

// The worked figures come out of the definitions.
pub fn figures_are_right()
    ensures { FiguresAreRight }
{}
