//! What may happen next, in lines.
ghost use Rattle.std.specs.Prelude.{◌≡◌, ◌<◌, ◌≤◌, ◌⊎◌, ◌++◌, ◌∷◌, [], IfErr, IfOk, None, OnOk};
ghost use Rattle.std.specs.Prelude.{Some};
ghost use Rattle.std.specs.Prelude.{drop, is_some, length, map, true};
ghost use Rattle.std.specs.List.{list_all};
ghost use Rattle.l4_core_model.specs.Runs.{told};
ghost use Rattle.l4_core_model.specs.Schedules.{replay_entries};
ghost use Rattle.l4_replay.specs.Entries.{entries_fault, entry_from, first_stranger, is_entry};
ghost use Rattle.l4_replay.specs.Entries.{most_events};
ghost use Rattle.l4_trace.specs.Lines.{has_line, trace_of};
ghost use Rattle.l4_next.specs.Nexts.{are_spelled, item_line, listed, next_by, nexts, nexts_fault};
ghost use Rattle.l4_next.specs.Nexts.{nexts_text};

use l4_history::history::History;
use l4_machine::replay_compact;
use l4_replay::{Entry, MOST_EVENTS, RunFault};
use l4_rounds::choices::{choice, choice_count, is_possible};
use l4_rounds::walk_behind;
use l4_schedules::writing::write_schedule;
use l4_script::machine::Machine;
use l4_trace::traces::TraceWriter;
use l4_types::errors::NoMemory;
use std::alloc::Global;

// The history of the replay of these entries.
fn history_of(alloc: Global, machine: &Machine, entries: &[Entry]) -> Result<History, RunFault>
    ensures ok { IfOk result (λ history. history.steps
        ≡ told (replay_entries machine.now (map entry_from entries.now)).events) }
    ensures lawful { IfOk result (λ _.
        entries_fault machine.now (map entry_from entries.now) ≡ None) }
    ensures err { IfErr result (λ fault. (fault ≡ RunFault.NoMemory) ⊎
        (entries_fault machine.now (map entry_from entries.now) ≡ Some fault)) }
{
    let outcome = replay_compact(alloc, machine, entries)?;
    Ok(outcome.history.into_history(alloc)?)
}

// These entries, and one more.
fn with_entry(alloc: Global, entries: &[Entry], entry: Entry) -> Result<Vec<Entry>, NoMemory>
    requires { length entries.now < most_events }
    ensures { IfOk result (λ all. all.items ≡ entries.now ++ entry ∷ []) }
{
    let mut all = Vec::with_capacity(alloc, entries.len() + 1)?;
    all.extend_from_slice(entries)?;
    all.push(entry)?;
    Ok(all)
}

// The history of the replay of these entries and one more, which are of the machine.
fn history_with(
    alloc: Global,
    machine: &Machine,
    entries: &[Entry],
    entry: Entry,
) -> Result<History, NoMemory>
    requires few { length entries.now < most_events }
    requires lawful { first_stranger machine.now 1 (map entry_from entries.now) ≡ None }
    requires own { is_entry machine.now (entry_from entry) ≡ true }
    ensures { IfOk result (λ history. history.steps ≡ told (replay_entries machine.now
        (map entry_from entries.now ++ entry_from entry ∷ [])).events) }
{
    let all = with_entry(alloc, entries, entry)?;
    match history_of(alloc, machine, all.as_slice()) {
        Ok(history) => Ok(history),
        Err(_) => Err(NoMemory),
    }
}

// Appends the line of an item.
fn write_item(entry: Entry, lines: &mut Vec<u8>) -> Result<(), NoMemory>
    ensures { OnOk result
        (lines.new.items ≡ lines.old.items ++ item_line (entry_from entry)) }
{
    lines.extend_from_slice(b"next ")?;
    write_schedule(&[entry], lines)?;
    lines.extend_from_slice(b"\n")?;
    Ok(())
}

// Appends the trace lines of the steps of a history, but of those before `start`.
fn write_steps(
    alloc: Global,
    history: &History,
    start: usize,
    lines: &mut Vec<u8>,
) -> Result<(), NoMemory>
    ensures lines { OnOk result
        (lines.new.items ≡ lines.old.items ++ trace_of (drop start history.now.steps)) }
    ensures spelled { OnOk result (list_all has_line (drop start history.now.steps) ≡ true) }
{
    let mut writer = TraceWriter::new(alloc);
    writer.write(history.steps_between(start, history.len()))?;
    lines.extend_from_slice(writer.into_lines().as_slice())?;
    Ok(())
}

// Appends what an entry does behind these, which can be done.
fn write_next(
    alloc: Global,
    machine: &Machine,
    entries: &[Entry],
    before: &History,
    entry: Entry,
    lines: &mut Vec<u8>,
) -> Result<(), NoMemory>
    requires before { before.now.steps
        ≡ told (replay_entries machine.now (map entry_from entries.now)).events }
    requires lawful { first_stranger machine.now 1 (map entry_from entries.now) ≡ None }
    requires few { length entries.now < most_events }
    requires own { is_entry machine.now (entry_from entry) ≡ true }
    requires possible { is_some (next_by machine.now (replay_entries machine.now
        (map entry_from entries.now)).system (entry_from entry)) ≡ true }
    ensures lines { OnOk result (lines.new.items ≡ lines.old.items ++ nexts_text (listed
        (next_by machine.now (replay_entries machine.now (map entry_from entries.now)).system
        (entry_from entry)))) }
    ensures spelled { OnOk result (are_spelled (listed
        (next_by machine.now (replay_entries machine.now (map entry_from entries.now)).system
        (entry_from entry))) ≡ true) }
{
    let after = history_with(alloc, machine, entries, entry)?;
    write_item(entry, lines)?;
    write_steps(alloc, &after, before.len(), lines)?;
    Ok(())
}

/// The lines of what may happen next behind the replay of these entries. For each choice of the
/// machine that can be made there is a line `next ITEM`, and behind it the trace line of each step
/// that it would tell, none to three. The choices are of each processor, the lowest first: the first
/// letter of each poster, the turn of its core, the tick to its least deadline.
///
/// `Turns`: there are 1,000,015 entries or more, so none may follow. `Schedule`: this entry, counted
/// from 1, is the first that is none of the machine. `NoMemory`: memory was refused, which may come
/// in the place of `Schedule`.
pub fn next_lines(alloc: Global, machine: &Machine, entries: &[Entry]) -> Result<Vec<u8>, RunFault>
    ensures lines { IfOk result (λ lines. lines.items ≡ nexts_text (nexts machine.now
        (replay_entries machine.now (map entry_from entries.now)).system)) }
    ensures spelled { IfOk result (λ _. are_spelled (nexts machine.now
        (replay_entries machine.now (map entry_from entries.now)).system) ≡ true) }
    ensures lawful { IfOk result (λ _.
        nexts_fault machine.now (map entry_from entries.now) ≡ None) }
    ensures err { IfErr result (λ fault. (fault ≡ RunFault.NoMemory) ⊎
        (nexts_fault machine.now (map entry_from entries.now) ≡ Some fault)) }
{
    if entries.len() >= MOST_EVENTS {
        return Err(RunFault::Turns);
    }
    machine.facts();
    let before = history_of(alloc, machine, entries)?;
    let walk = walk_behind(alloc, machine, entries)?;
    let cpus = machine.cpus();
    let mut lines = Vec::new(alloc);
    for number in 0..choice_count(cpus) {
        if is_possible(&walk, cpus, number) {
            let entry = choice(cpus, number);
            write_next(alloc, machine, entries, &before, entry, &mut lines)?;
        }
    }
    Ok(lines)
}
