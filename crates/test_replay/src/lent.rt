// An array of which a front is lent.
use std::alloc::{AllocError, Global};

// An array, and how much of its front the next calls are lent, or all if it is shorter. The array outlives what is lent, so the count
// is no length of it.
#[derive(Drop)]
pub struct Lent<T: Copy> {
    pub all: Vec<T>,
    pub count: usize,
}

impl<T: Copy> Lent<T> {
    // An array of one value, and nothing lent.
    pub fn new(alloc: Global, len: usize, value: T) -> Result<Lent<T>, AllocError> {
        Ok(Lent {
            all: vec![in alloc; value; len]?,
            count: 0,
        })
    }

    // What is lent from one index up to another.
    pub fn part(&self, from: usize, to: usize) -> &[T] {
        text_words::part(&self.all, from, to.min(self.count))
    }

    // What is lent.
    pub fn front(&self) -> &[T] {
        text_words::part(&self.all, 0, self.count)
    }

    // What is lent, to be written.
    pub fn front_mut(&mut self) -> &mut [T] {
        let n = self.count.min(self.all.len());
        &mut self.all[..n]
    }
}
