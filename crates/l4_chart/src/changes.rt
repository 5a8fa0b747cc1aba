//! What a step changes in the threads that are shown: their registers, and who waits at them.
ghost use Rattle.std.specs.Prelude.{◌≡◌, ◌<◌, ◌==◌, ◌++◌, IfOk, OnOk, bytes_eq, codes, decimal};
ghost use Rattle.std.specs.Prelude.{length, slice_get};
ghost use Rattle.std.specs.Option.{option_to_list};
ghost use Rattle.std.specs.String.{string_bytes};
ghost use Rattle.l4_model.specs.World.{list_at};
ghost use Rattle.l4_chart.specs.Changes.{all_held, change_line, changed_parts, changed_registers};
ghost use Rattle.l4_chart.specs.Changes.{changes_since, held_in, held_of, id_part, line_of_parts};
ghost use Rattle.l4_chart.specs.Changes.{or_none, register_part, register_parts, sender_word};
ghost use Rattle.l4_chart.specs.Changes.{sender_words, unless};

use crate::columns::Column;
use crate::ink::{push_text, push_thread};
use l4_audit::found::Found;
use l4_audit::world::World;
use l4_script::machine::Machine;
use l4_types::errors::NoMemory;
use l4_types::ids::{GlobalId, ThreadId};
use l4_types::registers::Regs;
use l4_words::spelling;
use std::alloc::{AllocError, Global};
use std::marker::Model;

/// What a thread has in a world: its registers, and the threads whose sends wait at it.
#[derive(Debug, Drop)]
pub(crate) struct Held {
    id: GlobalId,
    registers: Regs,
    // Each with a space before it, in order.
    senders: String,
}

impl Model for Held {
    ghost use Rattle.std.specs.String.{string_bytes};
    ghost use Rattle.l4_chart.specs.Changes.{Held as HeldByThread};

    ghost Value = { HeldByThread };

    ghost view = { λ h. record {
      id = h.id;
      registers = h.registers;
      senders = string_bytes h.senders;
    } };
}

// Appends the thread at a place of the order of declaration, if there is one.
fn push_sender(words: &mut String, machine: &Machine, place: usize) -> Result<(), AllocError>
    ensures { OnOk result (string_bytes words.new ≡
        string_bytes words.old ++ sender_word (slice_get machine.now.threads place)) }
{
    match machine.threads().get(place) {
        Some(declared) => spelling::push_thread(words, declared.id()),
        None => Ok(()),
    }
}

// The threads whose sends wait at the thread of a place.
fn senders_at(alloc: Global, world: &World<'_>, place: usize) -> Result<String, AllocError>
    requires { place < length world.now.machine.threads }
    ensures { IfOk result (λ senders. string_bytes senders ≡
        sender_words world.now.machine (list_at world.now.world.waiting place)) }
{
    let mut senders = String::new(alloc);
    for sender in world.senders_at(place) {
        push_sender(&mut senders, world.machine(), sender)?;
    }
    Ok(senders)
}

fn held_of(alloc: Global, world: &World<'_>, found: &Found<'_>) -> Result<Held, AllocError>
    requires { found.now.at < length world.now.machine.threads }
    ensures { IfOk result (λ held. held ≡ held_of world.now.machine world.now.world found.now) }
{
    Ok(Held {
        id: found.id(),
        registers: *found.tcb.thread().regs(),
        senders: senders_at(alloc, world, found.place())?,
    })
}

// What a thread has, if it is declared.
fn held_in(alloc: Global, world: &World<'_>, id: GlobalId) -> Result<Option<Held>, AllocError>
    ensures { IfOk result (λ held. held ≡ held_in world.now.machine world.now.world id) }
{
    world.facts();
    match world.found(id) {
        Some(found) => Ok(Some(held_of(alloc, world, &found)?)),
        None => Ok(None),
    }
}

// Appends what a thread has, if it is declared.
fn push_held(all: &mut Vec<Held>, world: &World<'_>, id: GlobalId) -> Result<(), NoMemory>
    ensures { OnOk result (all.new.items ≡ all.old.items ++
        option_to_list (held_in world.now.machine world.now.world id)) }
{
    let held = held_in(*all.allocator(), world, id)?;
    if let Some(held) = held {
        all.push(held)?;
    }
    Ok(())
}

/// What the threads of these columns have.
pub(crate) fn all_held(
    alloc: Global,
    world: &World<'_>,
    columns: &[Column],
) -> Result<Vec<Held>, NoMemory>
    ensures { IfOk result (λ held. held.items ≡
        all_held world.now.machine world.now.world columns.now) }
{
    let mut all = Vec::new(alloc);
    for column in columns {
        push_held(&mut all, world, column.id)?;
    }
    Ok(all)
}

// Appends ErrorCode, if it is not what it was.
fn push_error(parts: &mut String, before: u64, behind: u64) -> Result<(), AllocError>
    ensures { OnOk result (string_bytes parts.new ≡ string_bytes parts.old ++
        unless (before == behind) (codes "ErrorCode " ++ decimal behind)) }
{
    if before == behind {
        return Ok(());
    }
    write!(parts, ", ErrorCode {behind}")
}

// Appends a register that has an id, if it is not what it was.
fn push_id(
    parts: &mut String,
    name: &str,
    before: ThreadId,
    behind: ThreadId,
) -> Result<(), AllocError>
    ensures { OnOk result (string_bytes parts.new ≡
        string_bytes parts.old ++ id_part name.now before behind) }
{
    if before.raw() == behind.raw() {
        return Ok(());
    }
    parts.push_str(", ")?;
    parts.push_str(name)?;
    spelling::push_id(parts, behind)
}

// Appends a message register, if it is not what it was.
fn push_register(
    parts: &mut String,
    before: &[u64],
    number: usize,
    word: u64,
) -> Result<(), AllocError>
    ensures { OnOk result (string_bytes parts.new ≡
        string_bytes parts.old ++ register_part before.now (number, word)) }
{
    if before.get(number).copied().unwrap_or(0) == word {
        return Ok(());
    }
    write!(parts, ", MR{number} 0x{word:x}")
}

fn push_registers(parts: &mut String, before: &[u64], behind: &[u64]) -> Result<(), AllocError>
    ensures { OnOk result (string_bytes parts.new ≡
        string_bytes parts.old ++ register_parts before.now behind.now) }
{
    for (number, word) in behind.iter().enumerate() {
        push_register(parts, before, number, *word)?;
    }
    Ok(())
}

// Appends each register that is not what it was.
fn push_changed_registers(
    parts: &mut String,
    before: &Regs,
    behind: &Regs,
) -> Result<(), AllocError>
    ensures { OnOk result (string_bytes parts.new ≡
        string_bytes parts.old ++ changed_registers before.now behind.now) }
{
    push_error(parts, before.error, behind.error)?;
    push_id(parts, "from", before.from, behind.from)?;
    push_id(parts, "ActualSender", before.actual, behind.actual)?;
    push_registers(parts, &before.words, &behind.words)?;
    Ok(())
}

fn or_none(senders: &str) -> &str
    ensures { result.now ≡ or_none senders.now }
{
    if senders.is_empty() { " none" } else { senders }
}

// Appends who waits there, if these are not those from before.
fn push_senders(parts: &mut String, before: &str, behind: &str) -> Result<(), AllocError>
    ensures { OnOk result (string_bytes parts.new ≡ string_bytes parts.old ++
        unless (bytes_eq before.now behind.now) (codes "senders" ++ or_none behind.now)) }
{
    if before == behind {
        return Ok(());
    }
    parts.push_str(", senders")?;
    parts.push_str(or_none(behind))
}

// What is not what it was, each behind a comma.
fn changed_parts(alloc: Global, before: &Held, behind: &Held) -> Result<String, AllocError>
    ensures { IfOk result (λ parts. string_bytes parts ≡ changed_parts before.now behind.now) }
{
    let mut parts = String::new(alloc);
    push_changed_registers(&mut parts, &before.registers, &behind.registers)?;
    push_senders(&mut parts, before.senders.as_str(), behind.senders.as_str())?;
    Ok(parts)
}

// Appends the line of a thread, if anything has changed there.
fn push_parts(out: &mut Vec<u8>, id: GlobalId, parts: &[u8]) -> Result<(), NoMemory>
    ensures { OnOk result (out.new.items ≡ out.old.items ++ line_of_parts id parts.now) }
{
    if parts.is_empty() {
        return Ok(());
    }
    push_text(out, "\n      ")?;
    push_thread(out, id)?;
    push_text(out, ":")?;
    out.extend_from_slice(&parts[1..])?;
    Ok(())
}

// Appends what has changed in a thread.
fn push_change(out: &mut Vec<u8>, world: &World<'_>, before: &Held) -> Result<(), NoMemory>
    ensures { OnOk result (out.new.items ≡ out.old.items ++
        change_line before.now (held_in world.now.machine world.now.world before.now.id)) }
{
    let alloc = *out.allocator();
    let behind = held_in(alloc, world, before.id)?;
    let Some(behind) = behind else {
        return Ok(());
    };
    let parts = changed_parts(alloc, before, &behind)?;
    push_parts(out, behind.id, parts.as_bytes())
}

/// What has changed since these threads had that: a line for each of them in which something has.
pub(crate) fn changes_since(
    alloc: Global,
    world: &World<'_>,
    held: &[Held],
) -> Result<Vec<u8>, NoMemory>
    ensures { IfOk result (λ changes. changes.items ≡
        changes_since world.now.machine world.now.world held.now) }
{
    let mut changes = Vec::new(alloc);
    for before in held {
        push_change(&mut changes, world, before)?;
    }
    Ok(changes)
}
