//! What may be done behind the entries of a session, and the lines that tell it.
ghost use Rattle.std.specs.Prelude.{◌≡◌, ◌+◌, ◌<◌, ◌≤◌, ◌++◌, ◌∷◌, [], codes, decimal, drop, length};
ghost use Rattle.std.specs.Prelude.{map, IfOk, None, OnOk, true};
ghost use Rattle.std.specs.List.{list_all};
ghost use Rattle.l4_model.specs.History.{IsHistory};
ghost use Rattle.l4_core_model.specs.Runs.{told};
ghost use Rattle.l4_core_model.specs.Schedules.{replay_entries};
ghost use Rattle.l4_replay.specs.Entries.{entries_fault, entry_from, first_stranger, is_entry};
ghost use Rattle.l4_replay.specs.Entries.{most_events};
ghost use Rattle.l4_machine.specs.Outcomes.{compact_findings_of, IsCompactReplay, IsTrueOf};
ghost use Rattle.l4_schedules.specs.Items.{item_of};
ghost use Rattle.l4_trace.specs.Lines.{trace_of};
ghost use Rattle.l4_steps.specs.Possible.{choice_text, choices_from, choices_text, possible};

use itoa::Buffer;
use l4_history::history::History;
use l4_machine::{CompactOutcome, replay_compact};
use l4_next::law_next;
use l4_replay::Entry;
use l4_rounds::choices::{choice, choice_count, is_possible};
use l4_rounds::walk_behind;
use l4_schedules::writing::write_schedule;
use l4_script::machine::Machine;
use l4_trace::traces::TraceWriter;
use l4_types::errors::NoMemory;
use std::alloc::Global;

/// The outcome of the replay of entries of the machine.
pub(crate) fn outcome_of<'m>(
    alloc: Global,
    machine: &'m Machine,
    entries: &[Entry],
) -> Result<CompactOutcome<'m>, NoMemory>
    requires { entries_fault machine.now (map entry_from entries.now) ≡ None }
    ensures replayed { IfOk result (IsCompactReplay machine.now (map entry_from entries.now)) }
    ensures is_true { IfOk result (λ o. IsTrueOf machine.now (compact_findings_of o)) }
{
    match replay_compact(alloc, machine, entries) {
        Ok(outcome) => Ok(outcome),
        Err(_) => Err(NoMemory),
    }
}

/// The history of that replay.
pub(crate) fn history_of(
    alloc: Global,
    machine: &Machine,
    entries: &[Entry],
) -> Result<History, NoMemory>
    requires { entries_fault machine.now (map entry_from entries.now) ≡ None }
    ensures lawful { IfOk result (λ history. IsHistory machine.now history.steps) }
    ensures told { IfOk result (λ history. history.steps
        ≡ told (replay_entries machine.now (map entry_from entries.now)).events) }
{
    let outcome = outcome_of(alloc, machine, entries)?;
    outcome.history.into_history(alloc)
}

/// These entries, and one more.
pub(crate) fn with_entry(
    alloc: Global,
    entries: &[Entry],
    entry: Entry,
) -> Result<Vec<Entry>, NoMemory>
    requires { length entries.now < most_events }
    ensures { IfOk result (λ all. all.items ≡ entries.now ++ entry ∷ []) }
{
    let mut all = Vec::with_capacity(alloc, entries.len() + 1)?;
    all.extend_from_slice(entries)?;
    all.push(entry)?;
    Ok(all)
}

/// The entries that are possible behind these, in the order of their numbers.
pub(crate) fn possible_entries(
    alloc: Global,
    machine: &Machine,
    entries: &[Entry],
) -> Result<Vec<Entry>, NoMemory>
    requires { entries_fault machine.now (map entry_from entries.now) ≡ None }
    ensures { IfOk result (λ all. map entry_from all.items
        ≡ possible machine.now (map entry_from entries.now)) }
{
    law_next();
    machine.facts();
    let Ok(walk) = walk_behind(alloc, machine, entries) else {
        return Err(NoMemory);
    };
    let cpus = machine.cpus();
    let mut all = Vec::new(alloc);
    for number in 0..choice_count(cpus) {
        if is_possible(&walk, cpus, number) {
            all.push(choice(cpus, number))?;
        }
    }
    Ok(all)
}

// Appends the item of an entry in a line.
fn write_item(entry: Entry, lines: &mut Vec<u8>) -> Result<(), NoMemory>
    ensures { OnOk result
        (lines.new.items ≡ lines.old.items ++ item_of (entry_from entry) ++ codes "\n") }
{
    write_schedule(&[entry], lines)?;
    lines.extend_from_slice(b"\n")?;
    Ok(())
}

// Appends the trace lines of the steps of a history, but of those before `start`.
fn write_steps(
    alloc: Global,
    history: &History,
    start: usize,
    lines: &mut Vec<u8>,
) -> Result<(), NoMemory>
    ensures { OnOk result
        (lines.new.items ≡ lines.old.items ++ trace_of (drop start history.now.steps)) }
{
    let mut writer = TraceWriter::new(alloc);
    writer.write(history.steps_between(start, history.len()))?;
    lines.extend_from_slice(writer.into_lines().as_slice())?;
    Ok(())
}

/// Appends the item of an entry, and the lines of the steps that it tells behind these. `before` and
/// `after` are the histories of the replays without it and with it.
pub(crate) fn write_event(
    alloc: Global,
    entry: Entry,
    before: &History,
    after: &History,
    lines: &mut Vec<u8>,
) -> Result<(), NoMemory>
    ensures { OnOk result (lines.new.items ≡ lines.old.items ++ item_of (entry_from entry)
        ++ codes "\n" ++ trace_of (drop (length before.now.steps) after.now.steps)) }
{
    write_item(entry, lines)?;
    write_steps(alloc, after, before.len(), lines)
}

// Appends a number in decimal.
fn push_number(lines: &mut Vec<u8>, number: usize) -> Result<(), NoMemory>
    ensures { OnOk result (lines.new.items ≡ lines.old.items ++ decimal number) }
{
    let mut buffer = Buffer::new();
    lines.extend_from_slice(buffer.format(number).as_bytes())?;
    Ok(())
}

// Appends what an entry of the machine does behind these, with its number.
fn write_choice(
    alloc: Global,
    machine: &Machine,
    entries: &[Entry],
    before: &History,
    number: usize,
    entry: Entry,
    lines: &mut Vec<u8>,
) -> Result<(), NoMemory>
    requires before { before.now.steps
        ≡ told (replay_entries machine.now (map entry_from entries.now)).events }
    requires lawful { first_stranger machine.now 1 (map entry_from entries.now) ≡ None }
    requires few { length entries.now < most_events }
    requires own { is_entry machine.now (entry_from entry) ≡ true }
    ensures { OnOk result (lines.new.items ≡ lines.old.items
        ++ choice_text machine.now (map entry_from entries.now) number (entry_from entry)) }
{
    let all = with_entry(alloc, entries, entry)?;
    let after = history_of(alloc, machine, all.as_slice())?;
    lines.extend_from_slice(b"next ")?;
    push_number(lines, number)?;
    lines.extend_from_slice(b" ")?;
    write_event(alloc, entry, before, &after, lines)?;
    Ok(())
}

// Appends what each of these entries of the machine does, from number 1 on.
fn write_each(
    alloc: Global,
    machine: &Machine,
    entries: &[Entry],
    choices: &[Entry],
    lines: &mut Vec<u8>,
) -> Result<(), NoMemory>
    requires lawful { first_stranger machine.now 1 (map entry_from entries.now) ≡ None }
    requires few { length entries.now < most_events }
    requires own { list_all (is_entry machine.now) (map entry_from choices.now) ≡ true }
    ensures { OnOk result (lines.new.items ≡ lines.old.items
        ++ choices_from machine.now (map entry_from entries.now) 1
        (map entry_from choices.now)) }
{
    let before = history_of(alloc, machine, entries)?;
    for (i, entry) in choices.iter().enumerate() {
        write_choice(alloc, machine, entries, &before, i + 1, *entry, lines)?;
    }
    Ok(())
}

/// Appends what is possible behind these entries: of each entry a line with its number and its item,
/// and the lines of the steps that it would tell.
pub(crate) fn write_choices(
    alloc: Global,
    machine: &Machine,
    entries: &[Entry],
    lines: &mut Vec<u8>,
) -> Result<(), NoMemory>
    requires lawful { first_stranger machine.now 1 (map entry_from entries.now) ≡ None }
    requires few { length entries.now < most_events }
    ensures { OnOk result (lines.new.items ≡ lines.old.items
        ++ choices_text machine.now (map entry_from entries.now)) }
{
    let possible = possible_entries(alloc, machine, entries)?;
    if possible.is_empty() {
        lines.extend_from_slice(b"nothing is possible\n")?;
        return Ok(());
    }
    write_each(alloc, machine, entries, possible.as_slice(), lines)
}
