// What a plan of asking is: a function from logs to the next argument to ask, or to none.
ghost use Rattle.std.specs.Prelude.{◌≡◌};
ghost use Rattle.logs.specs.Points.{points};
ghost use Rattle.tables.specs.Plan.{Plan as Asking, Lawful};

use logs::Log;

// A plan means a function from logs, which keeps the law of plans. It may keep working memory,
// but a call leaves what it means unchanged.
pub trait Plan {
    ghost asks: { Self → Asking };

    ghost lawful: { (plan : Self) → Lawful (asks plan) };

    // The argument to ask next of a logger with this log, or none.
    fn next(&mut self, log: &Log) -> Option<u32>
        ensures answer { result ≡ asks self.old (points log.now) }
        ensures same { asks self.new ≡ asks self.old };
}
