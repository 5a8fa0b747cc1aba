//! Bells, which tell a processor that letters may have come.
use std::alloc::{AllocError, Global};
use std::sync::Arc;
use std::sync::atomic::{AtomicUsize, Ordering};

/// The bell of a processor. The others ring it when they have moved letters on to it, so that it
/// looks into their rings only then. What is taken, and in which order, does not rest on it.
#[derive(Drop)]
pub struct Bell {
    rung: Arc<AtomicUsize>,
}

impl Bell {
    /// A bell that was not rung yet.
    pub fn new(alloc: Global) -> Result<Bell, AllocError> {
        Ok(Bell {
            rung: Arc::new(alloc, AtomicUsize::new(0))?,
        })
    }

    /// The same bell, for another processor to ring.
    pub fn rope(&self) -> Result<Bell, AllocError> {
        Ok(Bell {
            rung: self.rung.clone()?,
        })
    }

    /// Rings it. What was done before is seen by those that hear it.
    pub fn ring(&self) {
        self.rung.fetch_add(1, Ordering::Release);
    }

    /// How many times it was rung, modulo 2^64.
    #[inline(always)]
    pub fn times(&self) -> usize {
        self.rung.load(Ordering::Acquire)
    }
}
