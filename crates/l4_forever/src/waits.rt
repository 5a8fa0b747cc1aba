//! In which phase a thread waits.

/// In which phase a thread waits that may wait for ever.
#[derive(Clone, Copy, PartialEq, Eq, Debug)]
pub enum Wait {
    /// In a send phase.
    Send,
    /// In a receive phase that takes one thread alone.
    Receive,
    /// In neither.
    Neither,
}
