//! The faults of a text with scripts of version 2.
ghost use Rattle.std.specs.Prelude.{◌≡◌, ◌≤◌, ◌++◌, [], List, if◌then◌else◌, map, length};
ghost use Rattle.std.specs.Prelude.{IfOk, OnOk, All};
ghost use Rattle.std.specs.Option.{option_copied, option_map};
ghost use Rattle.l4_words.specs.Lines.{parts_of};
ghost use Rattle.l4_script.specs.Inner.Second.{stage_of};
ghost use Rattle.l4_script.specs.Second.Texts.{ended as stage_ended};
ghost use Rattle.l4_lint.specs.Found.{Fault as FaultView, fault_in};
ghost use Rattle.l4_lint.specs.Lines.{lines_of};
ghost use Rattle.l4_lint.specs.Second.Faults.{ended, faults_from, followed, line_fault, looked_in};
ghost use Rattle.l4_lint.specs.Second.Faults.{missed_fault, missed_faults, not_read, step};
ghost use Rattle.l4_lint.specs.Second.Faults.{text_ends};
ghost use Rattle.l4_lint.specs.Second.Reading.{Reader as ReaderView};
ghost use Rattle.l4_lint.specs.Inner.Views.{fault_of, second_reader_of, second_step_of};

mod commands;
mod forms;
mod judging;
mod names;
mod parts;
mod reading;
mod unused;

use crate::faults::{Fault, keep, next_line, unended};
use crate::hints::{Hint, Lines};
use crate::missed;
use crate::places::Place;
pub(crate) use commands::is_instruction;
use forms::{line_place, missed_place};
use l4_script::text::second::Stage;
use l4_script::text::{TextFault, TextFaultKind};
use l4_types::errors::NoMemory;
pub(crate) use parts::{Parts, parts_of};
use reading::Reader;
use std::alloc::Global;
pub(crate) use unused::{is_name_looked_for, is_unused_name};

/// The fault of a text that ends in front of its second line.
fn text_ends<'a>(number: usize) -> Fault<'a>
    ensures { fault_of result ≡ text_ends number }
{
    Fault {
        line: number,
        kind: TextFaultKind::BadLine,
        place: Place::new(1, b"", Hint::Begins(Lines::Processors)),
    }
}

// The text, as long as it is told where names are declared.
fn looked_in<'t>(left: u8, text: &'t [u8]) -> Option<&'t [u8]>
    ensures { option_map lines_of (option_copied result) ≡ looked_in left (parts_of text.now) }
{
    if left == 0 { None } else { Some(text) }
}

impl<'a> Reader<'a> {
    // The fault of this kind in the line of this number.
    fn line_fault(
        &self,
        text: &[u8],
        number: usize,
        line: &'a [u8],
        kind: TextFaultKind,
    ) -> Fault<'a>
        ensures { fault_of result ≡
            line_fault (parts_of text.now) number (second_reader_of self.now) line.now kind }
    {
        let text = looked_in(self.left, text);
        Fault {
            line: number,
            kind,
            place: line_place(&self.stage, self.lost, text, number, line, kind),
        }
    }

    // Reads the line of this number, and returns its fault. A faulty line is left out.
    fn step(
        &mut self,
        number: usize,
        alloc: Global,
        text: &[u8],
        line: &'a [u8],
    ) -> Result<Option<Fault<'a>>, NoMemory>
        ensures { IfOk result (λ fault. second_step_of self.new fault
            ≡ step (parts_of text.now) number (second_reader_of self.old) line.now) }
    {
        match self.read(number, alloc, line) {
            Ok(()) => {
                self.lead_on(line);
                Ok(None)
            }
            Err(TextFaultKind::NoMemory) => Err(NoMemory),
            Err(kind) => {
                let fault = self.line_fault(text, number, line, kind);
                self.leave_out(line);
                Ok(Some(fault))
            }
        }
    }
}

// Reads the line of this number and keeps its fault. Returns whether the lines behind it are
// judged.
fn read_on<'a>(
    alloc: Global,
    reader: &mut Reader<'a>,
    number: usize,
    text: &[u8],
    line: &'a [u8],
    found: &mut Vec<Fault<'a>>,
) -> Result<bool, NoMemory>
    ensures { IfOk result (λ on. (rest : ReaderView → List FaultView) →
        map fault_of found.new.items ++ (if on then rest (second_reader_of reader.new) else [])
        ≡ map fault_of found.old.items ++
        followed (step (parts_of text.now) number (second_reader_of reader.old) line.now) rest) }
{
    match reader.step(number, alloc, text, line)? {
        Some(fault) => {
            keep(found, fault)?;
            Ok(reader.goes_on())
        }
        None => Ok(true),
    }
}

// The fault of what a line names that its script does not have.
fn missed_fault<'a>(text: &[u8], parts: &[&'a [u8]], fault: TextFault) -> Fault<'a>
    requires short { All (λ part. length part.now ≤ 0x10_0000) parts.now }
    requires parts { map (λ part. part.now) parts.now ≡ parts_of text.now }
    ensures { fault_of result ≡ missed_fault (parts_of text.now) fault }
{
    let line = missed::line_at(parts, fault.line);
    Fault {
        line: fault.line,
        kind: fault.kind,
        place: missed_place(text, line, fault.kind),
    }
}

// The fault that the reader tells of a text that ends in front of the line of this number.
fn ended_fault(stage: Stage<'_>, number: usize) -> Option<TextFault>
    ensures { result ≡ fault_in (stage_ended (stage_of stage.entry) number) }
{
    match stage.ended(number) {
        Ok(_) => None,
        Err(fault) => Some(fault),
    }
}

// Appends the first fault of what lines name that their scripts do not have.
fn push_missed<'a>(
    alloc: Global,
    text: &'a [u8],
    missed: Option<TextFault>,
    found: &mut Vec<Fault<'a>>,
) -> Result<(), NoMemory>
    requires { length text.now ≤ 0x10_0000 }
    ensures { OnOk result (map fault_of found.new.items ≡ map fault_of found.old.items
        ++ missed_faults (parts_of text.now) missed) }
{
    let Some(fault) = missed else {
        return Ok(());
    };
    let parts = missed::parts_of(alloc, text)?;
    keep(found, missed_fault(text, parts.as_slice(), fault))
}

// Appends the fault of a text that ends in front of the line of this number.
fn push_ended<'a>(
    alloc: Global,
    text: &'a [u8],
    reader: Reader<'a>,
    number: usize,
    found: &mut Vec<Fault<'a>>,
) -> Result<(), NoMemory>
    requires { length text.now ≤ 0x10_0000 }
    ensures { OnOk result (map fault_of found.new.items ≡ map fault_of found.old.items
        ++ ended (parts_of text.now) (stage_of reader.entry.stage) reader.entry.faulty number) }
{
    if !reader.goes_on() {
        return keep(found, text_ends(number));
    }
    if reader.faulty {
        return Ok(());
    }
    push_missed(alloc, text, ended_fault(reader.stage, number), found)
}

/// The faults of a text that is not too long. Of the places and names that scripts do not have, the
/// first one.
pub(crate) fn faults_in<'a>(alloc: Global, text: &'a [u8]) -> Result<Vec<Fault<'a>>, NoMemory>
    requires { length text.now ≤ 0x10_0000 }
    ensures { IfOk result (λ found. map fault_of found.items
        ≡ faults_from (parts_of text.now) (parts_of text.now) not_read 1) }
{
    let mut found = Vec::new(alloc);
    let mut reader = Reader::new();
    let mut rest = text;
    let mut number = 1;
    'lines: while let Some((line, others)) = next_line(rest) {
        if !read_on(alloc, &mut reader, number, text, line, &mut found)? {
            return Ok(found);
        }
        rest = others;
        number += 1;
    }
    if rest.is_empty() {
        push_ended(alloc, text, reader, number, &mut found)?;
    } else {
        keep(&mut found, unended(number, rest))?;
    }
    Ok(found)
}
