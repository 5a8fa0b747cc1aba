//! The faults of a list: items that spell no entry of the machine, and what may stand there.
ghost use Rattle.std.specs.Prelude.{◌≡◌, ◌≤◌, ◌==◌, ◌++◌, ◌∷◌, [], IfOk, OnOk, OnErr, length, map};
ghost use Rattle.std.specs.List.{list_any};
ghost use Rattle.std.specs.Option.{option_map};
ghost use Rattle.std.specs.String.{string_bytes};
ghost use Rattle.l4_replay.specs.Entries.{entry_from, most_events};
ghost use Rattle.l4_schedules.specs.Faulty.{fault, fault_at, fault_line, faults_from, faults_text};
ghost use Rattle.l4_schedules.specs.Faulty.{faults_within, file_faults, first_hint, hint_by};
ghost use Rattle.l4_schedules.specs.Faulty.{hint_of, hint_text, list_faults, number_text};
ghost use Rattle.l4_schedules.specs.Faulty.{spelling_hint};
ghost use Rattle.l4_schedules.specs.InFiles.{is_blank};
ghost use Rattle.l4_schedules.specs.Items.{items_of};
ghost use Rattle.l4_schedules.specs.Inner.Views.{fault_of};
ghost use Rattle.l4_schedules.specs.declared.faulty.ItemHint.TheVariants as these;

use crate::files::{MOST_FILE_BYTES, is_blank, list_in_file};
use crate::items::{Items, entry_of, item_count};
use l4_lint::spelling::push_shown;
use l4_replay::{Entry, MOST_ENTRIES, MOST_EVENTS};
use l4_script::machine::Machine;
use l4_types::errors::NoMemory;
use std::alloc::{AllocError, Global};

/// What is said of an item: what is wrong there, or what may stand there.
#[derive(Clone, Copy, Debug, PartialEq, Eq)]
pub enum ItemHint {
    /// The list has more items than this, the most that it may have.
    ManyItems(usize),
    /// The file has more bytes than one with a list may have.
    LongFile,
    /// It names a processor that the machine does not have.
    Processor,
    /// Nothing stands between two commas, or behind the last one.
    Empty,
    /// A blank stands where none may.
    Blank,
    /// A tick may stand there, as the item begins with a `t`.
    Tick,
    /// The turn of a core may stand there, as the item begins with a `c`.
    Core,
    /// Any item may stand there.
    Item,
}

/// A fault of a list.
#[derive(Clone, Copy, Debug)]
pub(crate) struct ItemFault<'a> {
    /// The item, counted from 1. 0 where the fault is of no item.
    pub(crate) number: usize,
    /// What stands there.
    pub(crate) word: &'a [u8],
    /// What is said of it.
    pub(crate) hint: ItemHint,
}

/// Appends a line for each fault of the list of a schedule, in order, and returns whether it has
/// none. A line has the item's number, what stands there and what may. The first fault is the one
/// that `schedule_of` returns. If memory is refused, nothing is appended.
pub fn write_list_faults(
    alloc: Global,
    machine: &Machine,
    list: &str,
    lines: &mut Vec<u8>,
) -> Result<bool, NoMemory>
    ensures none { IfOk result (λ none.
        none ≡ (length (list_faults machine.now list.now) == 0)) }
    ensures ok { OnOk result (lines.new.items ≡
        lines.old.items ++ faults_text (list_faults machine.now list.now)) }
    ensures err { OnErr result (lines.new.items ≡ lines.old.items) }
{
    let found = faults_within(alloc, MOST_ENTRIES, machine, list.as_bytes())?;
    write_faults(alloc, found.as_slice(), lines)
}

/// The same for the list in the text of a file, as `schedule_in_file` reads it.
pub fn write_file_faults(
    alloc: Global,
    machine: &Machine,
    text: &[u8],
    lines: &mut Vec<u8>,
) -> Result<bool, NoMemory>
    ensures none { IfOk result (λ none.
        none ≡ (length (file_faults machine.now text.now) == 0)) }
    ensures ok { OnOk result (lines.new.items ≡
        lines.old.items ++ faults_text (file_faults machine.now text.now)) }
    ensures err { OnErr result (lines.new.items ≡ lines.old.items) }
{
    if text.len() > MOST_FILE_BYTES {
        return write_faults(alloc, &[of_no_item(ItemHint::LongFile)], lines);
    }
    let list = list_in_file(alloc, text)?;
    let found = faults_within(alloc, MOST_EVENTS, machine, list.as_slice())?;
    write_faults(alloc, found.as_slice(), lines)
}

// Appends a line for each of these faults, or nothing if memory is refused. Returns whether there
// is none.
fn write_faults(
    alloc: Global,
    found: &[ItemFault<'_>],
    lines: &mut Vec<u8>,
) -> Result<bool, NoMemory>
    ensures none { IfOk result (λ none. none ≡ (length (map fault_of found.now) == 0)) }
    ensures ok { OnOk result
        (lines.new.items ≡ lines.old.items ++ faults_text (map fault_of found.now)) }
    ensures err { OnErr result (lines.new.items ≡ lines.old.items) }
{
    let mut text = Vec::new(alloc);
    push_faults(found, &mut text)?;
    lines.extend_from_slice(text.as_slice())?;
    Ok(found.is_empty())
}

// A fault of a list or of a file as a whole.
fn of_no_item<'a>(hint: ItemHint) -> ItemFault<'a>
    ensures { fault_of result ≡ fault 0 [] hint }
{
    ItemFault {
        number: 0,
        word: b"",
        hint,
    }
}

// The faults of a list that may have so many items.
fn faults_within<'a>(
    alloc: Global,
    most: usize,
    machine: &Machine,
    list: &'a [u8],
) -> Result<Vec<ItemFault<'a>>, NoMemory>
    requires { most ≤ most_events }
    ensures { IfOk result (λ found.
        map fault_of found.items ≡ faults_within most machine.now list.now) }
{
    if item_count(list) > most {
        let mut found = Vec::new(alloc);
        keep(&mut found, of_no_item(ItemHint::ManyItems(most)))?;
        return Ok(found);
    }
    faults_in(alloc, machine, list)
}

// The faults of a list that is not too long.
fn faults_in<'a>(
    alloc: Global,
    machine: &Machine,
    list: &'a [u8],
) -> Result<Vec<ItemFault<'a>>, NoMemory>
    requires { length (items_of list.now) ≤ most_events }
    ensures { IfOk result (λ found.
        map fault_of found.items ≡ faults_from machine.now 1 (items_of list.now)) }
{
    let mut items = Items::of(list);
    let mut found = Vec::new(alloc);
    let mut number = 1;
    while let Some(item) = items.next() {
        push_item_fault(machine, number, item, &mut found)?;
        number += 1;
    }
    Ok(found)
}

// Appends the fault of the item of this number, where it has one.
fn push_item_fault<'a>(
    machine: &Machine,
    number: usize,
    item: &'a [u8],
    found: &mut Vec<ItemFault<'a>>,
) -> Result<(), NoMemory>
    ensures { OnOk result (map fault_of found.new.items ≡
        map fault_of found.old.items ++ fault_at number item.now (hint_of machine.now item.now)) }
{
    if let Some(hint) = hint_of(machine, item) {
        keep(
            found,
            ItemFault {
                number,
                word: item,
                hint,
            },
        )?;
    }
    Ok(())
}

fn keep<'a>(found: &mut Vec<ItemFault<'a>>, fault: ItemFault<'a>) -> Result<(), NoMemory>
    ensures { OnOk result
        (map fault_of found.new.items ≡ map fault_of found.old.items ++ fault_of fault.entry ∷ []) }
{
    found.push(fault)?;
    Ok(())
}

// What is said of an item. None where it spells an entry of the machine.
fn hint_of(machine: &Machine, item: &[u8]) -> Option<ItemHint>
    ensures { result ≡ hint_of machine.now item.now }
{
    match entry_of(item) {
        None => Some(spelling_hint(item)),
        Some(entry) if entry.is_of(machine) => None,
        Some(_) => Some(ItemHint::Processor),
    }
}

// What may stand in the place of an item that spells no entry.
fn spelling_hint(item: &[u8]) -> ItemHint
    ensures { result ≡ spelling_hint item.now }
{
    if has_blank(item) {
        return ItemHint::Blank;
    }
    match item {
        [] => ItemHint::Empty,
        [b't', ..] => ItemHint::Tick,
        [b'c', ..] => ItemHint::Core,
        _ => ItemHint::Item,
    }
}

fn has_blank(item: &[u8]) -> bool
    ensures { result ≡ list_any is_blank item.now }
{
    item.iter().any(|byte| is_blank(*byte))
}

// Appends a line for each fault.
fn push_faults(found: &[ItemFault<'_>], out: &mut Vec<u8>) -> Result<(), NoMemory>
    ensures { OnOk result
        (out.new.items ≡ out.old.items ++ faults_text (map fault_of found.now)) }
{
    for fault in found {
        push_fault(fault, out)?;
    }
    Ok(())
}

// Appends the line of a fault.
fn push_fault(fault: &ItemFault<'_>, out: &mut Vec<u8>) -> Result<(), NoMemory>
    ensures { OnOk result (out.new.items ≡ out.old.items ++ fault_line (fault_of fault.now)) }
{
    push_number(fault.number, out)?;
    push_shown(fault.word, out)?;
    push_hint(fault.hint, out)?;
    out.push(b'\n')?;
    Ok(())
}

fn push_number(number: usize, out: &mut Vec<u8>) -> Result<(), NoMemory>
    ensures { OnOk result (out.new.items ≡ out.old.items ++ number_text number) }
{
    let mut words = String::new(*out.allocator());
    write!(words, "schedule item {number}: ")?;
    out.extend_from_slice(words.as_bytes())?;
    Ok(())
}

fn push_hint(hint: ItemHint, out: &mut Vec<u8>) -> Result<(), NoMemory>
    ensures { OnOk result (out.new.items ≡ out.old.items ++ hint_text hint) }
{
    let mut words = String::new(*out.allocator());
    tell(hint, &mut words)?;
    out.extend_from_slice(words.as_bytes())?;
    Ok(())
}

fn tell(hint: ItemHint, words: &mut String) -> Result<(), AllocError>
    ensures { OnOk result (string_bytes words.new ≡ string_bytes words.old ++ hint_text hint) }
{
    match hint {
        ItemHint::ManyItems(most) => write!(words, "a list has at most {most} items"),
        ItemHint::LongFile => words.push_str("a file with a list has at most 33554432 bytes"),
        ItemHint::Processor => {
            words.push_str("wanted: a processor, below the number of the cpus line")
        }
        ItemHint::Empty => {
            words.push_str("an empty item; one comma stands between two items and none elsewhere")
        }
        ItemHint::Blank => {
            words.push_str("a blank; blanks stand only around the items of a list in a file")
        }
        ItemHint::Tick => {
            words.push_str("wanted: tP or tP:V, P 0 to 15, V 1 to 4611686018427387903")
        }
        ItemHint::Core => words.push_str("wanted: cP, P 0 to 15"),
        ItemHint::Item => words.push_str("wanted: P, P:Q, cP, tP or tP:V, P and Q 0 to 15"),
    }
}
