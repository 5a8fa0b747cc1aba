//! Retargets that are owed (profile 2).
use crate::ids::GlobalId;
use crate::steps::Name;

/// An owed retarget, of profile 2: if the originator of a propagated message waits for the thread
/// that sent it, the old partner, it is to wait for the thread that received it, the new partner.
#[derive(Clone, Copy, PartialEq, Eq, Debug)]
pub struct Owed {
    /// The send that was delivered.
    pub send: Name,
    /// The thread that the message shows as its sender. It is to turn to the new partner.
    pub originator: GlobalId,
    /// The thread that sent the message.
    pub old_partner: GlobalId,
    /// The thread that received the message.
    pub new_partner: GlobalId,
}
