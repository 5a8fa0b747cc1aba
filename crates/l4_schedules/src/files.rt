//! The list of a schedule in a file.
ghost use Rattle.std.specs.Prelude.{◌≡◌, ◌⊎◌, ◌++◌, codes, flat_map, map, reverse, OnOk, IfOk};
ghost use Rattle.std.specs.Prelude.{IfErr, Ok, Err, None};
ghost use Rattle.std.specs.List.{join_by};
ghost use Rattle.l4_replay.specs.Entries.{entries_fault, entry_from};
ghost use Rattle.l4_replay.specs.declared.fault.RunFault.TheVariants.{NoMemory as OutOfMemory};
ghost use Rattle.l4_schedules.specs.InFiles.{behind_blanks, is_blank, is_comment, kept_line};
ghost use Rattle.l4_schedules.specs.InFiles.{list_in_file, schedule_in_file, trimmed};
ghost use Rattle.l4_schedules.specs.InFiles.{without_comments};
ghost use Rattle.l4_schedules.specs.Items.{items_of};

use crate::items::{Items, schedule_within};
use l4_replay::{Entry, MOST_EVENTS, RunFault};
use l4_script::machine::Machine;
use l4_types::errors::NoMemory;
use l4_words::lines::split_line;
use std::alloc::Global;

/// The text of a file with a list has at most this many bytes, 32 MiB.
pub const MOST_FILE_BYTES: usize = 33_554_432;

/// The entries of the schedule in a file. Lines that begin with `;` are skipped. So are the blanks
/// around an item: spaces, tabs, carriage returns and line ends.
///
/// `Turns`: the text has more than 33,554,432 bytes, or the list more than 1,000,015 items.
/// `Schedule`: this item, counted from 1, is the first that spells no entry of the machine.
/// `NoMemory`: memory was refused, whether or not the text has one of these faults.
pub fn schedule_in_file(
    alloc: Global,
    machine: &Machine,
    text: &[u8],
) -> Result<Vec<Entry>, RunFault>
    ensures ok { IfOk result (λ entries.
        schedule_in_file machine.now text.now ≡ Ok (map entry_from entries.items)) }
    ensures lawful { IfOk result (λ entries.
        entries_fault machine.now (map entry_from entries.items) ≡ None) }
    ensures err { IfErr result (λ fault. (fault ≡ OutOfMemory) ⊎
        (schedule_in_file machine.now text.now ≡ Err fault)) }
{
    if text.len() > MOST_FILE_BYTES {
        return Err(RunFault::Turns);
    }
    let list = list_in_file(alloc, text)?;
    schedule_within(alloc, MOST_EVENTS, machine, list.as_slice())
}

/// The list that the text of a file has, without comments, and without the blanks around its items.
pub fn list_in_file(alloc: Global, text: &[u8]) -> Result<Vec<u8>, NoMemory>
    ensures { IfOk result (λ list. list.items ≡ list_in_file text.now) }
{
    let lines = without_comments(alloc, text)?;
    trimmed_items(alloc, lines.as_slice())
}

// The lines of a text that are no comments.
fn without_comments(alloc: Global, text: &[u8]) -> Result<Vec<u8>, NoMemory>
    ensures { IfOk result (λ lines. lines.items ≡ without_comments text.now) }
{
    let mut lines = Vec::new(alloc);
    let mut left = text;
    'lines: while let Some((line, behind)) = split_line(left) {
        push_line(&mut lines, line)?;
        left = behind;
    }
    push_line(&mut lines, left)?;
    Ok(lines)
}

// Appends a line unless it is a comment.
fn push_line(lines: &mut Vec<u8>, line: &[u8]) -> Result<(), NoMemory>
    ensures { OnOk result (lines.new.items ≡ lines.old.items ++ kept_line line.now) }
{
    if !is_comment(line) {
        lines.extend_from_slice(line)?;
        lines.push(b'\n')?;
    }
    Ok(())
}

fn is_comment(line: &[u8]) -> bool
    ensures { result ≡ is_comment line.now }
{
    line.first() == Some(&b';')
}

// A list whose items are trimmed.
fn trimmed_items(alloc: Global, list: &[u8]) -> Result<Vec<u8>, NoMemory>
    ensures { IfOk result (λ trim.
        trim.items ≡ join_by trimmed (codes ",") (items_of list.now)) }
{
    let mut items = Items::of(list);
    let mut trim = Vec::new(alloc);
    if let Some(first) = items.next() {
        trim.extend_from_slice(trimmed(first))?;
        push_others(&mut trim, &mut items)?;
    }
    Ok(trim)
}

// Appends the items that are left, each behind a comma.
fn push_others(list: &mut Vec<u8>, items: &mut Items<'_>) -> Result<(), NoMemory>
    ensures { OnOk result (list.new.items ≡
        list.old.items ++ flat_map (λ item. codes "," ++ trimmed item) items.old) }
{
    while let Some(item) = items.next() {
        list.push(b',')?;
        list.extend_from_slice(trimmed(item))?;
    }
    Ok(())
}

// An item without the blanks around it.
fn trimmed(item: &[u8]) -> &[u8]
    ensures { result.now ≡ trimmed item.now }
{
    before_blanks(behind_blanks(item))
}

// What follows the blanks in front.
fn behind_blanks(item: &[u8]) -> &[u8]
    ensures { result.now ≡ behind_blanks item.now }
{
    let mut left = item;
    'blanks: while let Some((first, behind)) = left.split_first() {
        if !is_blank(*first) {
            break;
        }
        left = behind;
    }
    left
}

// What comes before the blanks at the end.
fn before_blanks(item: &[u8]) -> &[u8]
    ensures { result.now ≡ reverse (behind_blanks (reverse item.now)) }
{
    let mut left = item;
    'blanks: while let Some((last, before)) = left.split_last() {
        if !is_blank(*last) {
            break;
        }
        left = before;
    }
    left
}

pub(crate) fn is_blank(byte: u8) -> bool
    ensures { result ≡ is_blank byte }
{
    matches!(byte, b' ' | b'\t' | b'\r' | b'\n')
}
