//! The registers of a thread.
ghost use Rattle.std.specs.Prelude.{◌≡◌, replicate};
ghost use Rattle.l4_model.specs.Words.{NilThread, register_count};

use crate::ids::ThreadId;

/// A thread has this many message registers, MR0 to MR63: the numbers of registers are below this.
pub const MESSAGE_REGISTERS: usize = 64;

/// What a thread reads and an Ipc writes (manual: Messages and Message Registers; Thread Control
/// Registers).
#[derive(Clone, Copy, PartialEq, Eq, Debug)]
pub struct Regs {
    /// Message registers 0 to 63.
    pub words: [u64; MESSAGE_REGISTERS],
    /// ErrorCode. An Ipc that succeeds, or an order that is done, leaves 0. An Ipc that fails
    /// leaves its code, 2 to 7; a refused order leaves 2. Other instructions do not change it. It
    /// begins with 0.
    pub error: u64,
    /// The sender shown by the message of the last Ipc that ended; nilthread if that Ipc received
    /// none, or if no Ipc has ended.
    pub from: ThreadId,
    /// The one register that is VirtualSender and ActualSender.
    pub actual: ThreadId,
}

impl Regs {
    /// The registers of a thread that has run nothing: MR0 to MR63 and ErrorCode are 0, both ids
    /// nilthread.
    pub fn new() -> Regs
        ensures { result ≡ record {
          words = replicate register_count 0;
          error = 0;
          from = NilThread;
          actual = NilThread;
        } }
    {
        Regs {
            words: [0; MESSAGE_REGISTERS],
            error: 0,
            from: ThreadId::NIL,
            actual: ThreadId::NIL,
        }
    }
}

impl Default for Regs {
    ghost is_default = { λ regs. regs ≡ record {
      words = replicate register_count 0;
      error = 0;
      from = NilThread;
      actual = NilThread;
    } };

    fn default() -> Regs {
        Regs::new()
    }
}
