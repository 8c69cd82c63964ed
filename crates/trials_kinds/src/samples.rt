// Readings and looks that the trials share.
ghost use Rattle.std.specs.Prelude.{◌≡◌, [], ◌∷◌};

use counters::{ClimateReading, SupplyReading};
use loggers::Logger;

// A climate reading of minute 0.
pub fn climate(temperature: i16) -> ClimateReading
    ensures { (result.minute ≡ 0) × (result.temperature ≡ temperature) }
{
    ClimateReading {
        minute: 0,
        temperature,
    }
}

// A supply reading.
pub fn supply(millivolts: u16) -> SupplyReading
    ensures { result.millivolts ≡ millivolts }
{
    SupplyReading { millivolts }
}

// The span, the first and the last value of a logger.
pub fn ends<L: Logger>(logger: &L) -> [u32; 3]
    ensures { result ≡ L.Logger.extent logger.now ∷ L.Logger.table logger.now 0 ∷ L.Logger.table logger.now (L.Logger.extent logger.now) ∷ [] }
{
    [logger.span(), logger.first(), logger.last()]
}
