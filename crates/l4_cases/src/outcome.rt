//! The outcome of a command.

use std::alloc::Global;

/// What a command writes, and its exit status.
#[derive(PartialEq, Eq, Drop)]
pub struct Outcome {
    pub output: Vec<u8>,
    pub faults: Vec<u8>,
    pub status: u8,
}

impl Outcome {
    /// Nothing is written, and all is well.
    pub fn new(alloc: Global) -> Outcome {
        Outcome {
            output: Vec::new(alloc),
            faults: Vec::new(alloc),
            status: 0,
        }
    }
}
