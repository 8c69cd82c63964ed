// One answer of a logger: at the argument `at` its table has `value`.
#[derive(Clone, Copy, PartialEq, Eq, Debug)]
pub struct Point {
    pub at: u32,
    pub value: u32,
}
