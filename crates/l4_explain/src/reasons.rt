//! Why a step is refused, and the line of it.
ghost use Rattle.std.specs.Prelude.{◌≡◌, ◌++◌, true, codes, OnOk, OnErr};
ghost use Rattle.std.specs.String.{string_bytes};
ghost use Rattle.l4_model.specs.Machine.{Machine as ModelMachine};
ghost use Rattle.l4_model.specs.Steps.{Step as ModelStep};
ghost use Rattle.l4_model.specs.World.{World};
ghost use Rattle.l4_audit.specs.Reasons.{reason};
ghost use Rattle.l4_audit.specs.declared.reasons.Reason.{Reason as Told};
ghost use Rattle.l4_explain.specs.Reasons.{Holds, cause, cause_by_step, cause_of_order, cause_text};
ghost use Rattle.l4_explain.specs.Reasons.{has_word, sentence, sentence_of_reason, value_text};
ghost use Rattle.l4_explain.specs.declared.reasons.Cause.{Cause as Known};
ghost use Rattle.l4_explain.specs.declared.reasons.Value.TheVariants.{Order};
ghost use Rattle.l4_reports.specs.ReportLines.{state_word};
ghost use Rattle.l4_trace.specs.Lines.{order_kind_word};
ghost use Rattle.l4_types.specs.ReportView.{state_of_view};
ghost use Rattle.l4_types.specs.StepView.{order_kind_of, seen};

use l4_audit::reasons::Reason;
use l4_reports::report_lines::spelled_state;
use l4_script::machine::Machine;
use l4_thread::orders::PendingOrder;
use l4_types::errors::NoMemory;
use l4_types::ids::{GlobalId, ThreadId};
use l4_types::reports::State;
use l4_types::step_ref::StepRef;
use l4_types::steps::OrderKind;
use l4_words::spelling::{push_id, push_thread, push_word};
use std::alloc::AllocError;

/// Why a step is refused.
#[derive(Clone, Copy, PartialEq, Eq, Debug)]
pub enum Cause {
    /// The first condition of its rule that is false in the world before it.
    Rule(Reason),
    /// Its order is admitted in no world, as it is for this thread, which is not declared.
    TargetUndeclared(GlobalId),
    /// Its order is admitted in no world, as it is a cancellation, and the threads are of different
    /// address spaces.
    OtherSpace,
}

/// What stands behind the words of a cause.
#[derive(Clone, Copy, PartialEq, Eq, Debug)]
pub(crate) enum Value {
    Nothing,
    State(State),
    Thread(GlobalId),
    Id(ThreadId),
    Number(u64),
    Word(u64),
    Order(PendingOrder),
}

/// Why a step is refused for which an audit gives this reason. Where the thread's instruction gives
/// no admitted order, and the order of the step is not admitted either, it is that.
pub fn cause_of(machine: &Machine, step: &StepRef<'_>, reason: Reason) -> Cause
    ensures { result ≡ cause machine.now (seen step.now) reason }
{
    match reason {
        Reason::NoOrder => cause_by_step(machine, step),
        _ => Cause::Rule(reason),
    }
}

// Why a step is refused where the thread's instruction gives no admitted order.
fn cause_by_step(machine: &Machine, step: &StepRef<'_>) -> Cause
    ensures { result ≡ cause_by_step machine.now (seen step.now) }
{
    match step {
        StepRef::Order {
            caller,
            target,
            what,
        } => cause_of_order(machine, *caller, *target, *what),
        _ => Cause::Rule(Reason::NoOrder),
    }
}

// Why this order is refused where the thread's instruction gives no admitted one.
fn cause_of_order(machine: &Machine, caller: GlobalId, target: GlobalId, what: OrderKind) -> Cause
    ensures { result ≡ cause_of_order machine.now caller target (order_kind_of what) }
{
    if machine.admits(caller, target, what) {
        Cause::Rule(Reason::NoOrder)
    } else if machine.place_of(target).is_some() {
        Cause::OtherSpace
    } else {
        Cause::TargetUndeclared(target)
    }
}

/// Appends the line of a cause. If memory is refused, nothing is appended.
pub fn write_cause(cause: &Cause, out: &mut Vec<u8>) -> Result<(), NoMemory>
    ensures ok { OnOk result (out.new.items ≡ out.old.items ++ cause_text cause.now) }
    ensures err { OnErr result (out.new.items ≡ out.old.items) }
{
    let mut text = String::new(*out.allocator());
    push_cause(&mut text, cause)?;
    out.extend_from_slice(text.as_bytes())?;
    Ok(())
}

fn push_cause(text: &mut String, cause: &Cause) -> Result<(), AllocError>
    ensures { OnOk result (string_bytes text.new ≡
        string_bytes text.old ++ cause_text cause.now) }
{
    let (words, value) = sentence(cause);
    text.push_str("because ")?;
    text.push_str(words)?;
    push_value(text, &value)?;
    text.push('\n')?;
    Ok(())
}

// The words of a cause, and its value.
fn sentence(cause: &Cause) -> (&'static str, Value)
    ensures words { result.0.now ≡ (sentence cause.now).0 }
    ensures value { result.1 ≡ (sentence cause.now).1 }
{
    match cause {
        Cause::Rule(reason) => sentence_of_reason(reason),
        Cause::TargetUndeclared(target) => (
            "the order is not admitted, as it is for the undeclared thread",
            Value::Thread(*target),
        ),
        Cause::OtherSpace => (
            "the order is not admitted, as the threads are of different spaces",
            Value::Nothing,
        ),
    }
}

fn sentence_of_reason(reason: &Reason) -> (&'static str, Value)
    ensures words { result.0.now ≡ (sentence_of_reason reason.now).0 }
    ensures value { result.1 ≡ (sentence_of_reason reason.now).1 }
{
    match reason {
        Reason::Undeclared => ("the thread is not declared", Value::Nothing),
        Reason::NotReady(state) => ("the thread is not ready but", Value::State(*state)),
        Reason::NotLocal => (
            "the instruction is an ipc with a phase or an order",
            Value::Nothing,
        ),
        Reason::NotNext(begun) => (
            "the send is not the next after number",
            Value::Number(*begun),
        ),
        Reason::NoSendPhase => ("the instruction has no send phase", Value::Nothing),
        Reason::NoReceivePhase => (
            "the instruction does not begin with a receive phase",
            Value::Nothing,
        ),
        Reason::NoOrder => ("the instruction gives no admitted order", Value::Nothing),
        Reason::OtherOrder(asked) => ("the instruction gives the order", Value::Order(*asked)),
        Reason::NotUndecided => ("no send of this name is undecided", Value::Nothing),
        Reason::NoReceiver(to) => ("the destination is no declared thread but", Value::Id(*to)),
        Reason::ReceiverDeleted(receiver) => (
            "the destination is the deleted thread",
            Value::Thread(*receiver),
        ),
        Reason::Waiting => ("the send waits in a list already", Value::Nothing),
        Reason::NotWaiting => ("the send waits in no list", Value::Nothing),
        Reason::MustWait(to) => ("the send must wait for a retarget of", Value::Id(*to)),
        Reason::NotReceiving(state) => ("the receiver is not receiving but", Value::State(*state)),
        Reason::AcceptsNone => ("the receiver accepts no send in its list", Value::Nothing),
        Reason::NotFirst(sender) => (
            "the receiver accepts first the send of",
            Value::Thread(*sender),
        ),
        Reason::OtherReceiver(receiver) => ("the send goes to", Value::Thread(*receiver)),
        Reason::OtherShown(sender) => ("the shown sender is", Value::Thread(*sender)),
        Reason::OtherSender(sender) => ("the actual sender is", Value::Thread(*sender)),
        Reason::OtherTag(tag) => ("the received tag is", Value::Word(*tag)),
        Reason::OtherWords => ("the message has other words", Value::Nothing),
        Reason::NotTimedOut(clock) => (
            "the send does not time out at clock",
            Value::Number(*clock),
        ),
        Reason::HasDestination(to) => ("the destination is the living thread", Value::Id(*to)),
        Reason::SendNotCancelled => ("no cancellation of the send is asked for", Value::Nothing),
        Reason::SenderNotDeleted(state) => ("the sender is not deleted but", Value::State(*state)),
        Reason::ReceiveNotPassed(clock) => (
            "the receive does not time out at clock",
            Value::Number(*clock),
        ),
        Reason::HasPartner(from) => ("the receive is not from nobody but from", Value::Id(*from)),
        Reason::AcceptsFirst(sender) => (
            "the receiver accepts the waiting send of",
            Value::Thread(*sender),
        ),
        Reason::ReceiveNotCancelled => (
            "no cancellation of the receive is asked for",
            Value::Nothing,
        ),
        Reason::AskedNothing => ("the thread has no undone order", Value::Nothing),
        Reason::TargetUndeclared(target) => (
            "the order is for the undeclared thread",
            Value::Thread(*target),
        ),
        Reason::NoProcessor => ("the machine has no such processor", Value::Nothing),
        Reason::ClockAt(clock) => ("the clock is already at", Value::Number(*clock)),
        Reason::PastClocks => ("the clock stays below 4611686018427387904", Value::Nothing),
        Reason::NotOwed => ("no retarget of this name is owed", Value::Nothing),
        Reason::OriginatorUndeclared(originator) => (
            "the retarget is of the undeclared thread",
            Value::Thread(*originator),
        ),
    }
}

fn push_value(text: &mut String, value: &Value) -> Result<(), AllocError>
    ensures { OnOk result (string_bytes text.new ≡
        string_bytes text.old ++ value_text value.now) }
{
    match value {
        Value::Nothing => Ok(()),
        Value::State(state) => push_state(text, *state),
        Value::Thread(thread) => push_thread(text, *thread),
        Value::Id(id) => push_id(text, *id),
        Value::Number(number) => write!(text, " {number}"),
        Value::Word(word) => push_word(text, *word),
        Value::Order(asked) => push_order(text, asked),
    }
}

fn push_state(text: &mut String, state: State) -> Result<(), AllocError>
    ensures { OnOk result (string_bytes text.new ≡
        string_bytes text.old ++ codes " " ++ state_word (state_of_view state)) }
{
    write!(text, " {}", spelled_state(state))
}

fn push_order(text: &mut String, asked: &PendingOrder) -> Result<(), AllocError>
    ensures { OnOk result (string_bytes text.new ≡
        string_bytes text.old ++ value_text (Order asked.now)) }
{
    push_thread(text, asked.target())?;
    push_order_kind(text, asked.what())
}

fn push_order_kind(text: &mut String, what: OrderKind) -> Result<(), AllocError>
    ensures { OnOk result (string_bytes text.new ≡
        string_bytes text.old ++ codes " " ++ order_kind_word (order_kind_of what)) }
{
    match what {
        OrderKind::CancelSend => text.push_str(" S"),
        OrderKind::CancelReceive => text.push_str(" R"),
        OrderKind::CancelBoth => text.push_str(" SR"),
        OrderKind::Delete => text.push_str(" delete"),
    }
}

/// No two causes have one line, if their values are words and ids.
pub fn law_one_cause()
    ensures { (a b : Known) → has_word a ≡ true → has_word b ≡ true →
        cause_text a ≡ cause_text b → a ≡ b }
{}

/// What is told of a refused step is so.
pub fn law_causes()
    ensures { (m : ModelMachine) (w : World) (step : ModelStep) (r : Told) →
        reason m w step ≡ Some r → Holds m w step (cause m step r) }
{}
