// A readout: its log, the questions left, its mark, and the ticket that is out.
ghost use Rattle.std.specs.Prelude.{◌≡◌, ◌+◌, ◌≤◌, true, length};
ghost use Rattle.logs.specs.Points.{points};
ghost use Rattle.readout.specs.Out.{tickets, asks_new};

use logs::Log;

#[derive(Drop)]
pub struct Readout {
    pub(crate) log: Log,
    pub(crate) left: u32,
    pub(crate) mark: u16,
    // the argument of the ticket that is out
    pub(crate) out: Option<u32>,
    ghost unasked: { asks_new out (points log) ≡ true },
    ghost room: { length (points log) + left + tickets out ≤ 256 },
}
