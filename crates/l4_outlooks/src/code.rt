//! The code of a world.
ghost use Rattle.std.specs.Prelude.{◌≡◌, ◌<◌, Some, IfOk, OnOk, length, map, slice_get};
ghost use Rattle.std.specs.Prelude.{slice_index_or};
ghost use Rattle.std.specs.Option.{option_map};
ghost use Rattle.l4_model.specs.World.{is_deleted, is_in, list_at, opening_thread};
ghost use Rattle.l4_states.specs.Inner.Bytes.{bytes_of};
ghost use Rattle.l4_states.specs.Inner.Codes.{chained, number_code, owed_code, sized, thread_code};
ghost use Rattle.l4_codes.specs.Inner.Written.{Writes};
ghost use Rattle.l4_worlds.specs.Bare.{bare, bare_thread, in_order};
ghost use Rattle.l4_futures.specs.Inner.Codes.{code_of};
ghost use Rattle.l4_types.specs.Inner.OwedView.{owed_of};
ghost use Rattle.l4_outlooks.specs.Inner.Named.{sender_code};

use l4_audit::world::World;
use l4_codes::code::Code;
use l4_codes::letters::put_owed;
use l4_codes::threads::{put_context, put_standing, put_thread};
use l4_thread::tcb::Tcb;
use l4_thread::thread::Thread;
use l4_types::owed::Owed;
use std::alloc::{AllocError, Global};

// Most codes are not longer.
const USUAL_LEN: usize = 256;

/// The code of a world. It leaves out clocks, when phases and sends began, numbers of sends, and of
/// deleted threads their registers, their place, and the order of what waits at them.
///
/// `AllocError`: memory was refused.
pub(crate) fn code_of(alloc: Global, world: &World<'_>) -> Result<Vec<u8>, AllocError>
    ensures { IfOk result (λ bytes. bytes.items
        ≡ bytes_of (code_of world.now.machine world.now.world)) }
{
    let mut code = Code::new(alloc);
    code.reserve(USUAL_LEN)?;
    put_threads(&mut code, world)?;
    put_lists(&mut code, world)?;
    put_all_owed(&mut code, world.owed())?;
    code.into_bytes()
}

// Appends the threads, in order of declaration.
fn put_threads(code: &mut Code, world: &World<'_>) -> Result<(), AllocError>
    ensures { OnOk result (Writes (sized (length world.now.machine.threads) thread_code
        (bare world.now.world).threads) code.old code.new) }
{
    world.facts();
    code.put(0)?;
    for place in 0..world.machine().threads().len() {
        put_found(code, world, place)?;
    }
    Ok(())
}

// Appends the thread at a place.
fn put_found(code: &mut Code, world: &World<'_>, place: usize) -> Result<(), AllocError>
    requires { place < length world.now.machine.threads }
    ensures { OnOk result (Writes (thread_code
        (slice_index_or (bare world.now.world).threads place opening_thread)) code.old code.new) }
{
    world.facts();
    match world.found_at(place) {
        Some(found) => put_bare(code, found.tcb),
        None => Ok(()),
    }
}

// Appends a thread. Of a deleted one the registers and the place are as at the opening.
fn put_bare(code: &mut Code, block: &Tcb) -> Result<(), AllocError>
    ensures { OnOk result (Writes (thread_code (bare_thread block.now.thread)) code.old code.new) }
{
    if !block.is_deleted() {
        return put_thread(code, block);
    }
    put_context(code, &Thread::new(block.id()))?;
    put_standing(code, block)
}

// Appends the senders that wait at each thread, by their places.
fn put_lists(code: &mut Code, world: &World<'_>) -> Result<(), AllocError>
    ensures { OnOk result (Writes (sized (length world.now.machine.threads)
        (chained number_code) (bare world.now.world).waiting) code.old code.new) }
{
    world.facts();
    code.put(0)?;
    for place in 0..world.machine().threads().len() {
        put_list(code, world, place)?;
    }
    Ok(())
}

// Appends the senders that wait at one thread: of a deleted one in falling order of their places.
fn put_list(code: &mut Code, world: &World<'_>, receiver: usize) -> Result<(), AllocError>
    requires { receiver < length world.now.machine.threads }
    ensures { OnOk result (Writes (chained number_code
        (list_at (bare world.now.world).waiting receiver)) code.old code.new) }
{
    world.facts();
    if is_deleted(world, receiver) {
        put_falling(code, world, receiver)
    } else {
        put_as_queued(code, world, receiver)
    }
}

// Whether the thread at a place was deleted.
fn is_deleted(world: &World<'_>, place: usize) -> bool
    requires { place < length world.now.machine.threads }
    ensures { option_map (λ t. is_deleted t.phase) (slice_get world.now.world.threads place)
        ≡ Some result }
{
    world.facts();
    match world.found_at(place) {
        Some(found) => found.is_deleted(),
        None => false,
    }
}

// Appends the senders that wait at a thread, in the order in which they were queued.
fn put_as_queued(code: &mut Code, world: &World<'_>, receiver: usize) -> Result<(), AllocError>
    requires { receiver < length world.now.machine.threads }
    ensures { OnOk result (Writes (chained number_code (list_at world.now.world.waiting receiver))
        code.old code.new) }
{
    for sender in world.senders_at(receiver) {
        code.put(1)?;
        code.put(sender as u64)?;
    }
    code.put(0)
}

// Appends the senders that wait at a thread, in falling order of their places.
fn put_falling(code: &mut Code, world: &World<'_>, receiver: usize) -> Result<(), AllocError>
    requires { receiver < length world.now.machine.threads }
    ensures { OnOk result (Writes (chained number_code (in_order (length world.now.machine.threads)
        (list_at world.now.world.waiting receiver))) code.old code.new) }
{
    let mut below = world.machine().threads().len();
    while below > 0 {
        below -= 1;
        put_if_waiting(code, world, receiver, below)?;
    }
    code.put(0)
}

// Appends a sender, if it waits at a thread.
fn put_if_waiting(
    code: &mut Code,
    world: &World<'_>,
    receiver: usize,
    sender: usize,
) -> Result<(), AllocError>
    requires { receiver < length world.now.machine.threads }
    ensures { OnOk result (Writes (sender_code
        (is_in sender (list_at world.now.world.waiting receiver)) sender) code.old code.new) }
{
    if !waits_at(world, receiver, sender) {
        return Ok(());
    }
    code.put(1)?;
    code.put(sender as u64)
}

// Whether a sender waits at a thread.
fn waits_at(world: &World<'_>, receiver: usize, sender: usize) -> bool
    requires { receiver < length world.now.machine.threads }
    ensures { result ≡ is_in sender (list_at world.now.world.waiting receiver) }
{
    for waiting in world.senders_at(receiver) {
        if waiting == sender {
            return true;
        }
    }
    false
}

// Appends the owed retargets, in order of delivery.
fn put_all_owed(code: &mut Code, all: &[Owed]) -> Result<(), AllocError>
    ensures { OnOk result (Writes (chained owed_code (map owed_of all.now)) code.old code.new) }
{
    for owed in all {
        code.put(1)?;
        put_owed(code, owed)?;
    }
    code.put(0)
}
