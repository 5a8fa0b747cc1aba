//! Why a step is not possible.
ghost use Rattle.std.specs.Prelude.{◌≡◌, Some, None, true, false, IfOk, IfErr};
ghost use Rattle.l4_model.specs.Machine.{Machine};
ghost use Rattle.l4_model.specs.World.{World};
ghost use Rattle.l4_model.specs.Steps.{Step};
ghost use Rattle.l4_audit.specs.Reasons.{TellsWhy};

use l4_thread::orders::PendingOrder;
use l4_types::errors::NoMemory;
use l4_types::ids::{GlobalId, ThreadId};
use l4_types::reports::State;

/// The condition of a step's rule that is false, with the value that the world has instead.
#[derive(Clone, Copy, PartialEq, Eq, Debug)]
pub enum Reason {
    /// The thread is not declared.
    Undeclared,
    /// The thread is not ready, but in this state.
    NotReady(State),
    /// The thread's instruction is an Ipc with a phase, or gives an order.
    NotLocal,
    /// The thread began this many sends, so its next one has another number.
    NotNext(u64),
    /// The thread's instruction begins no send phase.
    NoSendPhase,
    /// The thread's instruction does not begin with a receive phase.
    NoReceivePhase,
    /// The thread's instruction gives no order.
    NoOrder,
    /// The thread's instruction gives this order.
    OtherOrder(PendingOrder),
    /// No send of this name is undecided.
    NotUndecided,
    /// The destination of the send names no declared thread.
    NoReceiver(ThreadId),
    /// The thread that the send goes to was deleted.
    ReceiverDeleted(GlobalId),
    /// The send waits in a list already.
    Waiting,
    /// The send waits in no list.
    NotWaiting,
    /// The send must wait: this destination has an owed retarget to the sender.
    MustWait(ThreadId),
    /// The thread is in no receive phase, but in this state.
    NotReceiving(State),
    /// No send that the receiver accepts waits in its list.
    AcceptsNone,
    /// The first send in its list that the receiver accepts is of this thread.
    NotFirst(GlobalId),
    /// The send goes to this thread.
    OtherReceiver(GlobalId),
    /// The message shows this sender.
    OtherShown(GlobalId),
    /// The message was sent by this thread.
    OtherSender(GlobalId),
    /// The receiver gets this tag.
    OtherTag(u64),
    /// The message has other words.
    OtherWords,
    /// The send may not time out yet: this is the clock of its sender's processor.
    NotTimedOut(u64),
    /// The destination of the send is a living thread.
    HasDestination(ThreadId),
    /// No cancellation of the send was asked for.
    SendNotCancelled,
    /// The sender was not deleted, but is in this state.
    SenderNotDeleted(State),
    /// The receive phase may not time out yet: this is the clock of its processor.
    ReceiveNotPassed(u64),
    /// The receive phase does not name a local, undeclared or deleted id: this is its specifier.
    HasPartner(ThreadId),
    /// This thread's send waits, and the receive phase accepts it.
    AcceptsFirst(GlobalId),
    /// No cancellation of the receive phase was asked for.
    ReceiveNotCancelled,
    /// The thread has no undone order.
    AskedNothing,
    /// The target of the order is not declared.
    TargetUndeclared(GlobalId),
    /// The machine has no such processor.
    NoProcessor,
    /// The clock of the processor is there already.
    ClockAt(u64),
    /// A clock stays below 2^62.
    PastClocks,
    /// No retarget of this name is owed.
    NotOwed,
    /// The originator that is to turn is not declared.
    OriginatorUndeclared(GlobalId),
}

/// Why a step was not taken.
#[derive(Clone, Copy, PartialEq, Eq, Debug)]
pub enum StepFault {
    /// Memory was refused.
    NoMemory,
    /// The step is not possible.
    Refused(Reason),
}

impl From<NoMemory> for StepFault {
    ghost use Rattle.std.specs.Prelude.{◌≡◌};
    ghost use Rattle.l4_audit.specs.declared.reasons.StepFault.TheVariants.{NoMemory as Wanting};

    ghost from_gives = { λ error fault. fault ≡ Wanting };

    fn from(_error: NoMemory) -> StepFault {
        StepFault::NoMemory
    }
}

impl From<Reason> for StepFault {
    ghost use Rattle.std.specs.Prelude.{◌≡◌};
    ghost use Rattle.l4_audit.specs.declared.reasons.StepFault.TheVariants.{Refused};

    ghost from_gives = { λ reason fault. fault ≡ Refused reason };

    fn from(reason: Reason) -> StepFault {
        StepFault::Refused(reason)
    }
}

/// There is a reason exactly where a step is not possible. It is a condition of the step's rule
/// that is false there, and the first such one in the order of the rule.
pub fn law_reasons()
    ensures { (m : Machine) (w : World) (step : Step) → TellsWhy m w step }
{}

/// A value that a rule needs.
pub(crate) fn need<T>(value: Option<T>, reason: Reason) -> Result<T, Reason>
    ensures ok { IfOk result (λ there. value ≡ Some there) }
    ensures err { IfErr result (λ told. (value ≡ None) × (told ≡ reason)) }
{
    match value {
        Some(there) => Ok(there),
        None => Err(reason),
    }
}

/// A test of a rule.
pub(crate) fn test(holds: bool, reason: Reason) -> Result<(), Reason>
    ensures ok { IfOk result (λ _. holds ≡ true) }
    ensures err { IfErr result (λ told. (holds ≡ false) × (told ≡ reason)) }
{
    if holds { Ok(()) } else { Err(reason) }
}
