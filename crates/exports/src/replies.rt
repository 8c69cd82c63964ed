// What an exported call gives back: figures, or a denial in numbers.
ghost use Rattle.std.specs.Prelude.{◌≡◌};
ghost use Rattle.denials.specs.Told.{told};
ghost use Rattle.exports.specs.Denied.{denied, reply_of};

use denials::Denial;

// A denial's number, or 0 and the figures: how many answers they rest on, and two limits.
// A plain record of numbers, since no enum passes to C.
#[derive(Clone, Copy)]
#[repr(C)]
pub struct Reply {
    pub denial: u32,
    pub answers: u32,
    pub low: u64,
    pub high: u64,
}

// A denial in numbers; the length, line or place that comes back with it stands as the low limit.
impl From<Denial> for Reply {
    ghost from_gives = { λ denial reply. reply ≡ denied (told denial) };

    fn from(denial: Denial) -> Reply {
        let back = match denial {
            Denial::Short(length) => length,
            Denial::Form(line) => line,
            Denial::Falls(place) => place,
            _ => 0,
        };
        Reply {
            denial: denial.number() as u32,
            answers: 0,
            low: back,
            high: 0,
        }
    }
}

// What C is told of a call: its figures, or its denial in numbers.
pub(crate) fn tell(outcome: Result<Reply, Denial>) -> Reply
    ensures { result ≡ reply_of outcome }
{
    outcome.unwrap_or_else(Reply::from)
}
