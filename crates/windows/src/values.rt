// Values of a logger where it is sure to have them.
ghost use Rattle.std.specs.Prelude.{◌≡◌, ◌-◌, ◌≤◌};

use loggers::Logger;

// The value at x, which lies within the span.
pub(crate) fn value_at<L: Logger>(logger: &L, x: u32) -> u32
    requires { x ≤ L.Logger.extent logger.now }
    ensures { result ≡ L.Logger.table logger.now x }
{
    logger.count(x).unwrap()
}

// How much the logger rises from x, which lies within the span, to its last end.
pub(crate) fn rise_from<L: Logger>(logger: &L, x: u32) -> u32
    requires { x ≤ L.Logger.extent logger.now }
    ensures { result ≡ L.Logger.table logger.now (L.Logger.extent logger.now) - L.Logger.table logger.now x }
{
    logger.last() - value_at(logger, x)
}
