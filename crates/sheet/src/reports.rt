// What is reported of an accepted run: its figures have at most so many digits, and the limits are in order.
ghost use Rattle.std.specs.Prelude.{◌^◌, ◌<◌, ◌≤◌};

use plans::Way;

#[derive(Clone, Copy)]
pub struct Report {
    pub way: Way,
    pub span: u32,
    pub asked: u32,
    pub low: u64,
    pub high: u64,
    ghost short_span: { span < 10 ^ 7 },
    ghost few: { asked < 10 ^ 3 },
    ghost in_order: { low ≤ high },
    ghost short_limits: { high < 10 ^ 16 },
}
