// The door strip's place: a lent row of words with at least as many bits as the span.
ghost use Rattle.std.specs.Prelude.{◌*◌, ◌≤◌, length};

mod making;

#[derive(Drop)]
pub struct DoorStrip<'a> {
    words: &'a [u64],
    span: u32,
    ghost long: { 1 ≤ span },
    ghost short: { span ≤ 1000000 },
    ghost enough: { span ≤ 64 * length words.now },
}
