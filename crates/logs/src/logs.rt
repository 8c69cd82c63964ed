// A log: 2 to 256 points from argument 0 to the span, which rise.
ghost use Rattle.std.specs.Prelude.{◌≡◌, ◌<◌, ◌≤◌, true, length};
ghost use Rattle.tables.specs.Log.{span_of};
ghost use Rattle.logs.specs.Held.{held, is_log};

use super::places::Places;

#[derive(Drop)]
pub struct Log {
    pub(crate) places: Places,
    ghost room: { places.used ≤ 256 },
    ghost counted: { length (held places) ≡ places.used },
    ghost sound: { is_log (held places) ≡ true },
    ghost spans: { 0 < span_of (held places) },
    ghost short: { span_of (held places) ≤ 1000000 },
}
