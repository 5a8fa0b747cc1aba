//! The list of a schedule, written.
ghost use Rattle.std.specs.Prelude.{◌≡◌, ◌<◌, ◌≤◌, ◌+◌, ◌%◌, ◌^◌, ◌++◌, codes, decimal, flat_map};
ghost use Rattle.std.specs.Prelude.{length, map, IfOk, OnOk};
ghost use Rattle.std.specs.List.{list_all};
ghost use Rattle.std.specs.Vec.{vec_capacity, vec_len};
ghost use Rattle.l4_replay.specs.Entries.{entry_from};
ghost use Rattle.l4_schedules.specs.Items.{item_of};
ghost use Rattle.l4_schedules.specs.Written.{in_lines, is_first_core, recorded_text, schedule_text};
ghost use Rattle.l4_schedules.specs.Written.{separator};

use itoa::Buffer;
use l4_replay::Entry;
use l4_types::errors::NoMemory;
use std::alloc::Global;

// The number of items in a line of a recorded list.
const ITEMS_A_LINE: usize = 16;

// A line of turns of core 0. Almost all lines of what a run on one processor records are this one.
const CORE_LINE: &str = "c0,c0,c0,c0,c0,c0,c0,c0,c0,c0,c0,c0,c0,c0,c0,c0";

// What separates two items has no more.
const SEPARATOR_BYTES: usize = 2;

// What separates two items, and the item of a letter between the processors 0 to 9, have no more.
const SHORT_BYTES: usize = SEPARATOR_BYTES + 3;

/// Appends the list of some entries: the item of each, with a comma between two. `schedule_of`
/// reads it as these entries, where they are of its machine and not too many. If memory is refused,
/// a part of the list may have been appended.
pub fn write_schedule(entries: &[Entry], lines: &mut Vec<u8>) -> Result<(), NoMemory>
    ensures { OnOk result (lines.new.items ≡
        lines.old.items ++ schedule_text (map entry_from entries.now)) }
{
    let Some((first, others)) = entries.split_first() else {
        return Ok(());
    };
    push_item(lines, *first)?;
    push_others(lines, others)
}

// Appends the items of these entries, each behind a comma.
fn push_others(lines: &mut Vec<u8>, entries: &[Entry]) -> Result<(), NoMemory>
    ensures { OnOk result (lines.new.items ≡ lines.old.items ++
        flat_map (λ entry. codes "," ++ item_of entry) (map entry_from entries.now)) }
{
    for entry in entries {
        push_text(lines, ",")?;
        push_item(lines, *entry)?;
    }
    Ok(())
}

/// The record of a run that has these entries: a comment line that says what it is, and the list,
/// 16 items in a line. `schedule_in_file` reads it as these entries.
pub fn recorded_text(alloc: Global, entries: &[Entry]) -> Result<Vec<u8>, NoMemory>
    ensures { IfOk result (λ text. text.items ≡ recorded_text (map entry_from entries.now)) }
{
    let mut text = Vec::new(alloc);
    push_text(&mut text, "; l4run replay FILE --schedule @NAME\n")?;
    push_lines(&mut text, entries)?;
    push_text(&mut text, "\n")?;
    Ok(text)
}

// Appends the items of these entries in lines.
fn push_lines(text: &mut Vec<u8>, entries: &[Entry]) -> Result<(), NoMemory>
    ensures { OnOk result (text.new.items ≡
        text.old.items ++ in_lines 0 (map entry_from entries.now)) }
{
    let mut before = 0;
    let mut others = entries;
    while let Some((line, behind)) = others.split_first_chunk::<ITEMS_A_LINE>() {
        push_line(text, before, line)?;
        before += ITEMS_A_LINE;
        others = behind;
    }
    push_each(text, before, others)
}

// Appends the items of a whole line behind `before` others.
fn push_line(
    text: &mut Vec<u8>,
    before: usize,
    line: &[Entry; ITEMS_A_LINE],
) -> Result<(), NoMemory>
    requires begins { before % 16 ≡ 0 }
    requires fits { before + length line.now < 2 ^ 64 }
    ensures { OnOk result (text.new.items ≡
        text.old.items ++ in_lines before (map entry_from line.now)) }
{
    if !is_core_line(line) {
        return push_each(text, before, line);
    }
    text.reserve(SEPARATOR_BYTES)?;
    push_separator(text, before);
    push_text(text, CORE_LINE)
}

// Whether all entries of a line are turns of core 0.
fn is_core_line(line: &[Entry; ITEMS_A_LINE]) -> bool
    ensures { result ≡ list_all (λ entry. is_first_core (entry_from entry)) line.now }
{
    line.iter().all(|entry| matches!(entry, Entry::Core(0)))
}

// Appends the items of these entries behind `before` others, one by one.
fn push_each(text: &mut Vec<u8>, before: usize, entries: &[Entry]) -> Result<(), NoMemory>
    requires { before + length entries.now < 2 ^ 64 }
    ensures { OnOk result (text.new.items ≡
        text.old.items ++ in_lines before (map entry_from entries.now)) }
{
    for (i, entry) in entries.iter().enumerate() {
        push_behind(text, before + i, entry)?;
    }
    Ok(())
}

// Appends the item of an entry behind `before` others. Room is asked for once: almost all that a run
// records is short.
#[inline(always)]
fn push_behind(text: &mut Vec<u8>, before: usize, entry: &Entry) -> Result<(), NoMemory>
    ensures { OnOk result (text.new.items ≡
        text.old.items ++ separator before ++ item_of (entry_from entry.now)) }
{
    text.reserve(SHORT_BYTES)?;
    push_separator(text, before);
    if let Entry::Core(cpu @ 0..=9) = *entry {
        push_core(text, cpu);
        return Ok(());
    }
    if let Entry::Letter {
        cpu: cpu @ 0..=9,
        from: from @ 0..=9,
    } = *entry
    {
        push_letter(text, cpu, from);
        return Ok(());
    }
    push_long(text, entry)
}

// Appends the item of an entry that may be long. A call of its own: so no short one is copied.
#[inline(never)]
fn push_long(text: &mut Vec<u8>, entry: &Entry) -> Result<(), NoMemory>
    ensures { OnOk result (text.new.items ≡ text.old.items ++ item_of (entry_from entry.now)) }
{
    push_item(text, *entry)
}

// Appends the item of the turn of a core, where room was asked for.
#[inline(always)]
#[tactic(auto, using(crate::proofs::Digits::one_digit))]
fn push_core(text: &mut Vec<u8>, cpu: u8)
    requires digit { cpu < 10 }
    requires room { vec_len text.old + 2 ≤ vec_capacity text.old }
    ensures { text.new.items ≡ text.old.items ++ codes "c" ++ decimal cpu }
{
    text.push_reserved(b'c');
    text.push_reserved(b'0' + cpu);
}

// Appends the item of a letter, where room was asked for.
#[inline(always)]
#[tactic(auto, using(crate::proofs::Digits::one_digit))]
fn push_letter(text: &mut Vec<u8>, cpu: u8, from: u8)
    requires digits { (cpu < 10) × (from < 10) }
    requires room { vec_len text.old + 3 ≤ vec_capacity text.old }
    ensures { text.new.items ≡ text.old.items ++ decimal cpu ++ codes ":" ++ decimal from }
{
    text.push_reserved(b'0' + cpu);
    text.push_reserved(b':');
    text.push_reserved(b'0' + from);
}

// Appends what separates an item from the `before` items in front of it.
#[inline(always)]
fn push_separator(text: &mut Vec<u8>, before: usize)
    requires { vec_len text.old + 2 ≤ vec_capacity text.old }
    ensures items { text.new.items ≡ text.old.items ++ separator before }
    ensures len { vec_len text.new ≤ vec_len text.old + 2 }
    ensures capacity { vec_capacity text.new ≡ vec_capacity text.old }
{
    if before == 0 {
        return;
    }
    text.push_reserved(b',');
    if before % ITEMS_A_LINE == 0 {
        text.push_reserved(b'\n');
    }
}

// Appends the item of an entry.
fn push_item(text: &mut Vec<u8>, entry: Entry) -> Result<(), NoMemory>
    ensures { OnOk result (text.new.items ≡ text.old.items ++ item_of (entry_from entry)) }
{
    match entry {
        Entry::Turn(cpu) => push_number(text, u64::from(cpu)),
        Entry::Tick(cpu) => push_named(text, "t", cpu),
        Entry::Core(cpu) => push_named(text, "c", cpu),
        Entry::Letter { cpu, from } => push_pair(text, cpu, u64::from(from)),
        Entry::TickTo { cpu, clock } => {
            push_text(text, "t")?;
            push_pair(text, cpu, clock)
        }
    }
}

// Appends a processor and the letter before it.
fn push_named(text: &mut Vec<u8>, letter: &str, cpu: u8) -> Result<(), NoMemory>
    ensures { OnOk result (text.new.items ≡ text.old.items ++ letter.now ++ decimal cpu) }
{
    push_text(text, letter)?;
    push_number(text, u64::from(cpu))
}

// Appends a processor and a number, with a colon between them.
fn push_pair(text: &mut Vec<u8>, cpu: u8, number: u64) -> Result<(), NoMemory>
    ensures { OnOk result (text.new.items ≡
        text.old.items ++ decimal cpu ++ codes ":" ++ decimal number) }
{
    push_number(text, u64::from(cpu))?;
    push_text(text, ":")?;
    push_number(text, number)
}

fn push_number(text: &mut Vec<u8>, number: u64) -> Result<(), NoMemory>
    ensures { OnOk result (text.new.items ≡ text.old.items ++ decimal number) }
{
    let mut buffer = Buffer::new();
    push_text(text, buffer.format(number))
}

fn push_text(text: &mut Vec<u8>, more: &str) -> Result<(), NoMemory>
    ensures { OnOk result (text.new.items ≡ text.old.items ++ more.now) }
{
    text.extend_from_slice(more.as_bytes())?;
    Ok(())
}
