//! What a thread waits for.
use l4_types::ids::ThreadId;

/// What a thread waits for.
#[derive(Clone, Copy, PartialEq, Eq, Debug)]
pub enum Wait {
    /// That its undecided send, which has this destination, is decided.
    Send(ThreadId),
    /// That its undecided send is decided. This destination is in a receive phase that accepts the
    /// send, once it is the first acceptable one.
    Arrival(ThreadId),
    /// That it receives a message. This is whom its receive phase accepts.
    Receive(ThreadId),
}
