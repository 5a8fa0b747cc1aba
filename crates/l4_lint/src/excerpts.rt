//! The first fault of a text with the line that it is in, as a terminal shows them.
ghost use Rattle.std.specs.Prelude.{◌≡◌, ◌++◌, IfOk, OnOk, map, replicate};
ghost use Rattle.l4_lint.specs.Excerpts.{excerpt, fault_shown, line_in, mark_count, marks};
ghost use Rattle.l4_lint.specs.Excerpts.{shown_byte, shown_line};
ghost use Rattle.l4_lint.specs.Inner.Views.{place_of};

use crate::faults::faults;
use crate::missed::{line_at, parts_of};
use crate::places::Place;
use crate::spelling::push_fault;
use l4_script::text::MOST_BYTES;
use l4_types::errors::NoMemory;
use std::alloc::Global;

// What stands in front of the line.
const INDENT: &[u8] = b"    ";

// A longer line is not shown.
const MOST_SHOWN: usize = 240;

fn shown_byte(byte: u8) -> u8
    ensures { result ≡ shown_byte byte }
{
    match byte {
        b' '..=b'~' => byte,
        _ => b'?',
    }
}

// Appends a line as a terminal shows it.
fn push_shown_line(line: &[u8], out: &mut Vec<u8>) -> Result<(), NoMemory>
    ensures { OnOk result (out.new.items ≡ out.old.items ++ shown_line line.now) }
{
    out.extend_from_slice(INDENT)?;
    push_shown_bytes(line, out)?;
    out.push(b'\n')?;
    Ok(())
}

fn push_shown_bytes(line: &[u8], out: &mut Vec<u8>) -> Result<(), NoMemory>
    ensures { OnOk result (out.new.items ≡ out.old.items ++ map shown_byte line.now) }
{
    for byte in line {
        out.push(shown_byte(*byte))?;
    }
    Ok(())
}

// Appends a byte `count` times.
fn push_times(byte: u8, count: usize, out: &mut Vec<u8>) -> Result<(), NoMemory>
    ensures { OnOk result (out.new.items ≡ out.old.items ++ replicate count byte) }
{
    for _done in 0..count {
        out.push(byte)?;
    }
    Ok(())
}

fn mark_count(word: &[u8]) -> usize
    ensures { result ≡ mark_count word.now }
{
    if word.is_empty() { 1 } else { word.len() }
}

// Appends the marks below a place.
fn push_marks(place: &Place<'_>, out: &mut Vec<u8>) -> Result<(), NoMemory>
    ensures { OnOk result (out.new.items ≡ out.old.items ++ marks (place_of place.now)) }
{
    push_times(b' ', 3, out)?;
    push_times(b' ', place.column, out)?;
    push_times(b'^', mark_count(place.word), out)?;
    out.push(b'\n')?;
    Ok(())
}

// Appends a line and the marks below a place of it, unless the line is empty or too long.
fn push_excerpt(line: &[u8], place: &Place<'_>, out: &mut Vec<u8>) -> Result<(), NoMemory>
    ensures { OnOk result (out.new.items ≡ out.old.items ++ excerpt line.now (place_of place.now)) }
{
    if line.is_empty() || line.len() > MOST_SHOWN {
        return Ok(());
    }
    push_shown_line(line, out)?;
    push_marks(place, out)
}

// The line of this number.
fn line_in<'a>(alloc: Global, text: &'a [u8], number: usize) -> Result<&'a [u8], NoMemory>
    ensures { IfOk result (λ line. line.now ≡ line_in text.now number) }
{
    if text.len() > MOST_BYTES {
        return Ok(b"");
    }
    let parts = parts_of(alloc, text)?;
    Ok(line_at(parts.as_slice(), number))
}

/// The line of a lint for the first fault of a text, with the name of its file, the line of the
/// text, and marks below the place. Nothing where the text declares a machine. A line of more than
/// 240 bytes is left out. `NoMemory`: memory was refused.
pub fn fault_shown(alloc: Global, file: &str, text: &[u8]) -> Result<Vec<u8>, NoMemory>
    ensures { IfOk result (λ shown. shown.items ≡ fault_shown file.now text.now) }
{
    let mut shown = Vec::new(alloc);
    let found = faults(alloc, text)?;
    if let Some(fault) = found.first() {
        push_fault(Some(file), fault, &mut shown)?;
        let line = line_in(alloc, text, fault.line)?;
        push_excerpt(line, &fault.place, &mut shown)?;
    }
    Ok(shown)
}
