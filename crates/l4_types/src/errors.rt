//! The ErrorCode of a failed Ipc, and want of memory.
ghost use Rattle.std.specs.Prelude.{◌≡◌};
ghost use Rattle.l4_types.specs.Inner.Codes.{code_of};

use std::alloc::{AllocError, AllocFailed};

/// Why an Ipc failed (manual: Ipc).
#[derive(Clone, Copy, PartialEq, Eq, Debug)]
pub enum IpcError {
    /// The send timed out.
    SendTimeout,
    /// The receive timed out.
    ReceiveTimeout,
    /// Nobody has the id that the message was sent to.
    SendNobody,
    /// Nobody has the id that the receive phase names.
    ReceiveNobody,
    /// The send phase was cancelled.
    SendCancelled,
    /// The receive phase was cancelled.
    ReceiveCancelled,
}

impl IpcError {
    /// The word of the register ErrorCode, 2 to 7: bit 0 is the phase (0 send, 1 receive), bits 1
    /// to 3 are the cause (1 timeout, 2 non-existing partner, 3 cancelled).
    pub fn code(self) -> u64
        ensures { result ≡ code_of self }
    {
        match self {
            IpcError::SendTimeout => 2,
            IpcError::ReceiveTimeout => 3,
            IpcError::SendNobody => 4,
            IpcError::ReceiveNobody => 5,
            IpcError::SendCancelled => 6,
            IpcError::ReceiveCancelled => 7,
        }
    }
}

/// Memory was refused.
#[derive(Clone, Copy, PartialEq, Eq, Debug)]
pub struct NoMemory;

impl From<AllocError> for NoMemory {
    fn from(_error: AllocError) -> NoMemory {
        NoMemory
    }
}

impl<T: Drop> From<AllocFailed<T>> for NoMemory {
    fn from(_error: AllocFailed<T>) -> NoMemory {
        NoMemory
    }
}
