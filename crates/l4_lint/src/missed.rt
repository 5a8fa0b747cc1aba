//! Lines that name a place which their script does not have.
ghost use Rattle.std.specs.Prelude.{◌≡◌, ◌≤◌, ◌++◌, All, filter, length, map, IfOk, OnOk};
ghost use Rattle.l4_words.specs.Lines.{parts_of};
ghost use Rattle.l4_script.specs.Texts.{is_missed};
ghost use Rattle.l4_lint.specs.Faults.{line_at, missed_fault};
ghost use Rattle.l4_lint.specs.Inner.Views.{fault_of};

use crate::bytes::split_word;
use crate::faults::{Fault, keep, next_line};
use crate::hints::{Hint, Operand};
use crate::places::Place;
use l4_script::text::{Reading, Target, TextFaultKind};
use l4_types::errors::NoMemory;
use std::alloc::Global;

/// The lines of a text, and last what stands behind its last line end.
pub(crate) fn parts_of<'a>(alloc: Global, text: &'a [u8]) -> Result<Vec<&'a [u8]>, NoMemory>
    requires { length text.now ≤ 0x10_0000 }
    ensures parts { IfOk result
        (λ parts. map (λ part. part.now) parts.items ≡ parts_of text.now) }
    ensures short { IfOk result
        (λ parts. All (λ part. length part.now ≤ 0x10_0000) parts.items) }
{
    let mut parts = Vec::new(alloc);
    let mut rest = text;
    'lines: while let Some((line, others)) = next_line(rest) {
        parts.push(line)?;
        rest = others;
    }
    parts.push(rest)?;
    Ok(parts)
}

/// The line of this number.
pub(crate) fn line_at<'a>(parts: &[&'a [u8]], number: usize) -> &'a [u8]
    requires { All (λ part. length part.now ≤ 0x10_0000) parts.now }
    ensures value { result.now ≡ line_at (map (λ part. part.now) parts.now) number }
    ensures short { length result.now ≤ 0x10_0000 }
{
    match parts.get(number.saturating_sub(1)) {
        Some(line) => *line,
        None => b"",
    }
}

/// The fault of a line that names a place which its script does not have.
fn missed_fault<'a>(parts: &[&'a [u8]], target: &Target) -> Fault<'a>
    requires { All (λ part. length part.now ≤ 0x10_0000) parts.now }
    ensures { fault_of result ≡ missed_fault (map (λ part. part.now) parts.now) target.now }
{
    let line = line_at(parts, target.line());
    Fault {
        line: target.line(),
        kind: TextFaultKind::BadTarget,
        place: Place::at(line, split_word(line).1, Hint::Wanted(Operand::Place)),
    }
}

/// Appends the fault of each line that names a place which its script does not have.
pub(crate) fn push_missed<'a>(
    alloc: Global,
    text: &'a [u8],
    reading: &Reading,
    found: &mut Vec<Fault<'a>>,
) -> Result<(), NoMemory>
    requires { length text.now ≤ 0x10_0000 }
    ensures { OnOk result (map fault_of found.new.items ≡ map fault_of found.old.items
        ++ map (missed_fault (parts_of text.now))
        (filter (is_missed reading.now.machine) reading.now.targets)) }
{
    let parts = parts_of(alloc, text)?;
    for target in reading.targets() {
        if target.is_missed(reading.machine()) {
            keep(found, missed_fault(parts.as_slice(), target))?;
        }
    }
    Ok(())
}
