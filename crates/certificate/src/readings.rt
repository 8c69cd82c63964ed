// The readings in a text.
use records::{Batch, Written};
use std::alloc::{AllocError, Global};

// The lines of an input that are to be readings, and the number of the first of them.
#[derive(Clone, Copy)]
pub(crate) struct Readings<'a> {
    pub(crate) text: &'a str,
    pub(crate) first: u64,
}

impl Readings<'_> {
    // The batch of these lines.
    pub(crate) fn gather<T: Written + Drop>(&self, heap: Global) -> Result<Batch<T>, AllocError> {
        let mut batch = Batch::new(heap);
        for (number, line) in (self.first..u64::MAX).zip(self.text.lines()) {
            batch.enter(number, line)?;
        }
        Ok(batch)
    }
}
