// The counter's place: up to 1,000,000 lent readings, and a span.
ghost use Rattle.std.specs.Prelude.{◌≤◌, length};

mod making;

#[derive(Drop)]
pub struct Counter<'a, T> {
    readings: &'a [T],
    span: u32,
    ghost long: { 1 ≤ span },
    ghost short: { span ≤ 1000000 },
    ghost few: { length readings.now ≤ 1000000 },
}
