//! Processors.
ghost use Rattle.std.specs.Prelude.{◌<◌, OnOk, length};
ghost use Rattle.l4_core_model.specs.Plain.{list_of};
ghost use Rattle.l4_states.specs.Inner.Codes.{armed_code, chained, each, lists_code, local_code};
ghost use Rattle.l4_states.specs.Inner.Codes.{number_code, optional, owed_code, sized, thread_code};
ghost use Rattle.l4_states.specs.Inner.Codes.{waiting_code};
ghost use Rattle.l4_types.specs.Inner.OwedView.{owed_of};
ghost use Rattle.std.specs.Option.{option_map};
ghost use Rattle.l4_codes.specs.Inner.Written.{Writes};

use crate::code::Code;
use crate::ids::put_global;
use crate::letters::put_owed;
use crate::threads::put_thread;
use l4_core::processor::Core;
use l4_types::owed::Owed;
use std::alloc::AllocError;
use tcb_arena::{Arena, Waiting};

/// Appends all that a processor knows but its last stamp and how late it is.
///
/// `AllocError`: memory was refused.
pub fn put_core(code: &mut Code, core: &Core<'_>) -> Result<(), AllocError>
    ensures { OnOk result (Writes (local_code (length core.now.machine.threads) core.now.local)
        code.old code.new) }
{
    code.put(1)?;
    put_threads(code, core)?;
    put_lists(code, core)?;
    put_told(code, core)?;
    put_all_owed(code, core)
}

// Appends the threads, in order of declaration.
fn put_threads(code: &mut Code, core: &Core<'_>) -> Result<(), AllocError>
    ensures { OnOk result (Writes
        (sized (length core.now.machine.threads) thread_code core.now.local.threads)
        code.old code.new) }
{
    let count = core.thread_count();
    code.put(0)?;
    for place in 0..count {
        put_thread(code, core.block(place))?;
    }
    Ok(())
}

// Appends, for each thread, the first processor that may not yet know of its deletion.
fn put_told(code: &mut Code, core: &Core<'_>) -> Result<(), AllocError>
    ensures { OnOk result (Writes
        (sized (length core.now.machine.threads) number_code core.now.local.told)
        code.old code.new) }
{
    let count = core.thread_count();
    code.put(0)?;
    for place in 0..count {
        code.put(u64::from(core.notified_up_to(place)))?;
    }
    Ok(())
}

// Appends, for each thread, the retarget that is owed, where there is one.
fn put_all_owed(code: &mut Code, core: &Core<'_>) -> Result<(), AllocError>
    ensures { OnOk result (Writes
        (sized (length core.now.machine.threads) (optional owed_code) core.now.local.owed)
        code.old code.new) }
{
    let count = core.thread_count();
    code.put(0)?;
    for place in 0..count {
        put_owed_beside(code, core.owed(place))?;
    }
    Ok(())
}

// Appends a retarget, where one is owed.
fn put_owed_beside(code: &mut Code, owed: Option<Owed>) -> Result<(), AllocError>
    ensures { OnOk result (Writes (optional owed_code (option_map owed_of owed))
        code.old code.new) }
{
    match owed {
        None => code.put(0),
        Some(owed) => {
            code.put(1)?;
            put_owed(code, &owed)
        }
    }
}

// Appends who waits, who is ready and who is armed.
fn put_lists(code: &mut Code, core: &Core<'_>) -> Result<(), AllocError>
    ensures { OnOk result (Writes
        (lists_code (length core.now.machine.threads) core.now.local.clock core.now.local.lists)
        code.old code.new) }
{
    put_waiting(code, core)?;
    put_ready(code, core.lists())?;
    put_armed(code, core.lists(), core.clock())
}

// Appends the sends that wait at each thread.
fn put_waiting(code: &mut Code, core: &Core<'_>) -> Result<(), AllocError>
    ensures { OnOk result (Writes
        (sized (length core.now.machine.threads) (chained waiting_code)
        core.now.local.lists.waiting)
        code.old code.new) }
{
    let count = core.thread_count();
    code.put(0)?;
    for receiver in 0..count {
        put_sends(code, core.lists(), receiver)?;
    }
    Ok(())
}

// Appends the sends that wait at one thread.
fn put_sends(code: &mut Code, lists: &Arena, receiver: usize) -> Result<(), AllocError>
    requires { receiver < length lists.now.waiting }
    ensures { OnOk result (Writes (chained waiting_code (list_of lists.now receiver))
        code.old code.new) }
{
    for send in lists.sends_at(receiver) {
        code.put(1)?;
        put_send(code, send)?;
    }
    code.put(0)
}

// Appends one waiting send.
fn put_send(code: &mut Code, send: Waiting) -> Result<(), AllocError>
    ensures { OnOk result (Writes (waiting_code send) code.old code.new) }
{
    code.put(send.block as u64)?;
    put_global(code, send.shown)?;
    code.put_flag(send.local)
}

// Appends the ready threads.
fn put_ready(code: &mut Code, lists: &Arena) -> Result<(), AllocError>
    ensures { OnOk result (Writes (chained number_code lists.now.ready) code.old code.new) }
{
    for block in lists.ready_blocks() {
        code.put(1)?;
        code.put(block as u64)?;
    }
    code.put(0)
}

// Appends the armed threads, with how far ahead of the clock their deadlines are.
fn put_armed(code: &mut Code, lists: &Arena, clock: u64) -> Result<(), AllocError>
    ensures { OnOk result (Writes (chained (armed_code clock) lists.now.armed) code.old code.new) }
{
    for (deadline, block) in lists.armed_blocks() {
        code.put(1)?;
        code.put(deadline.saturating_sub(clock))?;
        code.put(block as u64)?;
    }
    code.put(0)
}
