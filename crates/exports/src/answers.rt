// An answer that a program has from a logger: at the argument `at` it gave `value`, laid out as C lays it out.
#[derive(Clone, Copy)]
#[repr(C)]
pub struct Answer {
    pub at: u32,
    pub value: u32,
}
