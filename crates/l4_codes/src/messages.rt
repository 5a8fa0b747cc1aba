//! Messages and sends.
ghost use Rattle.std.specs.Prelude.{OnOk};
ghost use Rattle.l4_states.specs.Inner.Codes.{listed, message_code, number_code, optional};
ghost use Rattle.l4_states.specs.Inner.Codes.{receive_code};
ghost use Rattle.l4_states.specs.Inner.Codes.{send_code};
ghost use Rattle.l4_types.specs.Inner.PeriodView.{period_of};
ghost use Rattle.l4_codes.specs.Inner.Written.{Writes};

use crate::code::Code;
use crate::ids::{put_global, put_id};
use l4_thread::sends::{Receive, SendRef};
use l4_types::message_ref::MessageRef;
use l4_types::times::Period;
use std::alloc::AllocError;

/// Appends how long a phase may wait.
///
/// `AllocError`: memory was refused.
pub fn put_period(code: &mut Code, period: Period) -> Result<(), AllocError>
    ensures { OnOk result (Writes (optional number_code (period_of period)) code.old code.new) }
{
    match period {
        Period::Never => code.put(0),
        Period::Zero => {
            code.put(1)?;
            code.put(0)
        }
        Period::Ticks(ticks) => {
            code.put(1)?;
            code.put(ticks)
        }
    }
}

/// Appends a receive phase.
///
/// `AllocError`: memory was refused.
pub fn put_receive(code: &mut Code, receive: Receive) -> Result<(), AllocError>
    ensures { OnOk result (Writes (receive_code receive) code.old code.new) }
{
    put_id(code, receive.from())?;
    put_period(code, receive.period())
}

// Appends the receive phase of a call, where there is one.
fn put_receive_of(code: &mut Code, receive: Option<Receive>) -> Result<(), AllocError>
    ensures { OnOk result (Writes (optional receive_code receive) code.old code.new) }
{
    match receive {
        None => code.put(0),
        Some(receive) => {
            code.put(1)?;
            put_receive(code, receive)
        }
    }
}

// Appends the words of a message.
fn put_words(code: &mut Code, words: &[u64]) -> Result<(), AllocError>
    ensures { OnOk result (Writes (listed number_code words.now) code.old code.new) }
{
    code.put(words.len() as u64)?;
    code.put_all(words)
}

/// Appends a message.
///
/// `AllocError`: memory was refused.
pub fn put_message(code: &mut Code, message: &MessageRef<'_>) -> Result<(), AllocError>
    ensures { OnOk result (Writes (message_code message.now) code.old code.new) }
{
    code.put(message.label())?;
    put_words(code, message.words())?;
    code.put_flag(message.propagated())?;
    put_global(code, message.shown())?;
    put_global(code, message.actual())
}

/// Appends an undecided send, but not when it began.
///
/// `AllocError`: memory was refused.
pub fn put_send(code: &mut Code, send: &SendRef<'_>) -> Result<(), AllocError>
    ensures { OnOk result (Writes (send_code send.now) code.old code.new) }
{
    put_id(code, send.to())?;
    put_message(code, &send.message())?;
    put_period(code, send.period())?;
    put_receive_of(code, send.receive())
}
