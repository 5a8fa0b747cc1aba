//! What an Ipc asks for.
use crate::sends::Head;
use l4_types::ids::ThreadId;
use l4_types::messages::Message;
use l4_types::times::Period;

/// The phases of an Ipc that begins (manual: Ipc).
#[derive(PartialEq, Eq, Debug, Drop)]
pub struct Request {
    /// The send phase, unless the destination is nilthread: the destination, the message, and how
    /// long the phase may wait.
    pub send: Option<(ThreadId, Message, Period)>,
    /// The receive phase, unless its specifier is nilthread: whom it accepts, and how long it may
    /// wait.
    pub receive: Option<(ThreadId, Period)>,
}

/// The phases of an Ipc that begins. The words of its message stay in the registers of the thread.
#[derive(PartialEq, Eq, Debug, Drop)]
pub(crate) struct Begun {
    /// The send phase: the destination, what is fixed of the message but its words, and how long
    /// the phase may wait.
    pub send: Option<(ThreadId, Head, Period)>,
    /// The receive phase: whom it accepts, and how long it may wait.
    pub receive: Option<(ThreadId, Period)>,
}

impl Begun {
    /// An Ipc without phases.
    pub(crate) const NONE: Begun = Begun {
        send: None,
        receive: None,
    };
}
