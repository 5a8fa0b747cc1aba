//! The phase of a thread.
use crate::sends::Receive;

/// The phase of a thread (manual: Ipc).
#[derive(Clone, Copy, PartialEq, Eq, Debug)]
pub enum Phase {
    /// It can run its next instruction.
    Ready,
    /// It is in the send phase of an Ipc.
    Sending,
    /// It is in a receive phase, since this clock of its processor, in ticks.
    Receiving(Receive, u64),
    /// It waits until its order is done.
    Ordering,
    /// Its script has ended.
    Ended,
    /// It was deleted.
    Deleted,
}

/// The phase of an Ipc that a thread has begun.
#[derive(Clone, Copy, PartialEq, Eq, Debug)]
pub enum Began {
    /// No phase.
    Nothing,
    /// A send phase.
    Send,
    /// A receive phase without a send phase.
    Receive,
}
