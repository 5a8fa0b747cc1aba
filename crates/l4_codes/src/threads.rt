//! Threads.
ghost use Rattle.std.specs.Prelude.{OnOk};
ghost use Rattle.l4_states.specs.Inner.Codes.{asked_code, context_code, optional, phase_code};
ghost use Rattle.l4_states.specs.Inner.Codes.{send_code};
ghost use Rattle.l4_states.specs.Inner.Codes.{thread_code};
ghost use Rattle.l4_types.specs.StepView.{order_kind_of};
ghost use Rattle.l4_model.specs.Steps.{order_kind_code};
ghost use Rattle.l4_states.specs.Inner.Codes.{number_code};
ghost use Rattle.l4_codes.specs.Inner.States.{standing_code, state_number};
ghost use Rattle.l4_codes.specs.Inner.Written.{Writes};

use crate::code::Code;
use crate::ids::{put_global, put_id};
use crate::messages::{put_receive, put_send};
use l4_thread::orders::PendingOrder;
use l4_thread::sends::SendRef;
use l4_thread::tcb::Tcb;
use l4_thread::thread::Thread;
use l4_types::registers::MESSAGE_REGISTERS;
use l4_types::reports::State;
use l4_types::steps::OrderKind;
use std::alloc::AllocError;

/// Appends a cancellation or a deletion.
///
/// `AllocError`: memory was refused.
pub fn put_order_kind(code: &mut Code, what: OrderKind) -> Result<(), AllocError>
    ensures { OnOk result (Writes (number_code (order_kind_code (order_kind_of what)))
        code.old code.new) }
{
    match what {
        OrderKind::CancelSend => code.put(0),
        OrderKind::CancelReceive => code.put(1),
        OrderKind::CancelBoth => code.put(2),
        OrderKind::Delete => code.put(3),
    }
}

// Appends the send of a thread, where there is one.
fn put_send_of(code: &mut Code, send: Option<SendRef<'_>>) -> Result<(), AllocError>
    ensures { OnOk result (Writes (optional send_code send.entry) code.old code.new) }
{
    match send {
        None => code.put(0),
        Some(send) => {
            code.put(1)?;
            put_send(code, &send)
        }
    }
}

// Appends what a thread has asked of another, where there is something.
fn put_order_of(code: &mut Code, order: Option<PendingOrder>) -> Result<(), AllocError>
    ensures { OnOk result (Writes (optional asked_code order) code.old code.new) }
{
    match order {
        None => code.put(0),
        Some(order) => {
            code.put(1)?;
            put_global(code, order.target())?;
            put_order_kind(code, order.what())
        }
    }
}

// Appends the phase of a thread, but not when it began.
fn put_phase(code: &mut Code, block: &Tcb) -> Result<(), AllocError>
    ensures { OnOk result (Writes (phase_code block.now.thread.phase) code.old code.new) }
{
    let Some(receive) = block.receiving() else {
        return put_state(code, block.state());
    };
    code.put(2)?;
    put_receive(code, *receive)
}

// Appends which phase a thread is in.
fn put_state(code: &mut Code, state: State) -> Result<(), AllocError>
    ensures { OnOk result (Writes (number_code (state_number state)) code.old code.new) }
{
    match state {
        State::Ready => code.put(0),
        State::Sending => code.put(1),
        State::Receiving => code.put(2),
        State::Ordering => code.put(3),
        State::Ended => code.put(4),
        State::Deleted => code.put(5),
    }
}

/// Appends the registers, and the place in the script.
///
/// `AllocError`: memory was refused.
pub fn put_context(code: &mut Code, thread: &Thread) -> Result<(), AllocError>
    ensures { OnOk result (Writes (context_code thread.now.context) code.old code.new) }
{
    let regs = thread.regs();
    let words = regs.words.as_slice();
    code.put_length(MESSAGE_REGISTERS, words.len())?;
    code.put_all(words)?;
    code.put(regs.error)?;
    put_id(code, regs.from)?;
    put_id(code, regs.actual)?;
    code.put(thread.place() as u64)
}

/// Appends all of a thread but its registers and its place in the script.
///
/// `AllocError`: memory was refused.
pub fn put_standing(code: &mut Code, block: &Tcb) -> Result<(), AllocError>
    ensures { OnOk result (Writes (standing_code block.now.thread) code.old code.new) }
{
    put_phase(code, block)?;
    put_send_of(code, block.send())?;
    put_order_of(code, block.order())?;
    code.put_flag(block.is_send_cancelled())?;
    code.put_flag(block.is_receive_cancelled())
}

/// Appends a thread.
///
/// `AllocError`: memory was refused.
pub fn put_thread(code: &mut Code, block: &Tcb) -> Result<(), AllocError>
    ensures { OnOk result (Writes (thread_code block.now.thread) code.old code.new) }
{
    put_context(code, block.thread())?;
    put_standing(code, block)
}
