// The values of a table line: up to 64, in fixed memory.
// An array with its count beside it, since the kit's ArrayVec cannot be copied, as a job can.
ghost use Rattle.std.specs.Prelude.{◌≤◌};

mod keeping;

#[derive(Clone, Copy)]
pub struct Values {
    row: [u32; 64],
    count: usize,
    ghost few: { count ≤ 64 },
}
