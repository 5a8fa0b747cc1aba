//! The faults of a text.
ghost use Rattle.std.specs.Prelude.{◌≡◌, ◌≤◌, ◌+◌, ◌++◌, ◌∷◌, [], List, if◌then◌else◌, map, length};
ghost use Rattle.std.specs.Prelude.{IfOk, IfSome, MatchOption, OnOk};
ghost use Rattle.l4_words.specs.Lines.{parts_of};
ghost use Rattle.l4_script.specs.Inner.Stages.{stage_of};
ghost use Rattle.l4_script.specs.Versions.{machine_of_text};
ghost use Rattle.l4_lint.specs.Faults.{Fault as FaultView, step, followed, faults_from, faults_of};
ghost use Rattle.l4_lint.specs.Faults.{too_long, not_read, unended, text_ends, ended, first_in};
ghost use Rattle.l4_lint.specs.Faults.{fault_in};
ghost use Rattle.l4_lint.specs.Reading.{Reader as ReaderView};
ghost use Rattle.l4_lint.specs.Inner.Views.{fault_of, reader_of, step_of};

use crate::contexts::Context;
use crate::forms::line_place;
use crate::hints::Hint;
use crate::missed::push_missed;
use crate::places::Place;
use crate::reading::Reader;
use crate::second;
use l4_script::text::second::begins_second;
use l4_script::text::{MOST_BYTES, Stage, TextFaultKind};
use l4_types::errors::NoMemory;
use l4_words::lines::split_line;
use std::alloc::Global;

/// A fault of a machine text.
#[derive(Clone, Copy)]
pub struct Fault<'a> {
    /// The line, counted from 1, skipped lines too. 0 where the fault is of no line.
    pub line: usize,
    /// What is wrong there, as `Machine::parse` returns it.
    pub kind: TextFaultKind,
    /// Where it is in its line.
    pub place: Place<'a>,
}

/// All faults of a text, in order of their lines; none where it declares a machine. The first is
/// the one that `Machine::parse` returns.
///
/// A faulty line is left out, and the lines behind it are judged. Those behind a faulty `thread`
/// line are judged as a script of no thread. Behind a fault in front of the `thread` lines nothing
/// is judged. The places of `jump` and `onerr` are judged only where no line is faulty.
#[tactic(auto, using(crate::proofs::First::first_fault))]
pub fn faults<'a>(alloc: Global, text: &'a [u8]) -> Result<Vec<Fault<'a>>, NoMemory>
    ensures all { IfOk result (λ found. map fault_of found.items ≡ faults_of text.now) }
    ensures first { IfOk result
        (λ found. first_in (map fault_of found.items) ≡ fault_in (machine_of_text text.now)) }
{
    if text.len() > MOST_BYTES {
        let mut found = Vec::new(alloc);
        keep(&mut found, too_long())?;
        return Ok(found);
    }
    if begins_second(text) {
        return second::faults_in(alloc, text);
    }
    faults_in(alloc, text)
}

/// Appends a fault to those that were found.
pub(crate) fn keep<'a>(found: &mut Vec<Fault<'a>>, fault: Fault<'a>) -> Result<(), NoMemory>
    ensures { OnOk result
        (map fault_of found.new.items ≡ map fault_of found.old.items ++ fault_of fault.entry ∷ []) }
{
    found.push(fault)?;
    Ok(())
}

/// The fault of a text that has too many bytes.
fn too_long<'a>() -> Fault<'a>
    ensures { fault_of result ≡ too_long }
{
    Fault {
        line: 0,
        kind: TextFaultKind::TooLong,
        place: Place::new(0, b"", Hint::LongText),
    }
}

/// The fault of a last line without a line end.
pub(crate) fn unended<'a>(number: usize, line: &[u8]) -> Fault<'a>
    requires { length line.now ≤ 0x10_0000 }
    ensures { fault_of result ≡ unended number line.now }
{
    Fault {
        line: number,
        kind: TextFaultKind::BadLine,
        place: Place::new(line.len() + 1, b"", Hint::NoLineEnd),
    }
}

/// The fault of a text that ends in front of its first or its second line.
fn text_ends<'a>(number: usize, stage: &Stage) -> Fault<'a>
    ensures { fault_of result ≡ text_ends number (stage_of stage.now) }
{
    let lines = Context::at(stage, false).lines;
    Fault {
        line: number,
        kind: TextFaultKind::BadLine,
        place: Place::new(1, b"", Hint::Begins(lines)),
    }
}

/// The next line of a text, and what follows it. None where no line is ended.
#[tactic(auto, using(crate::proofs::Sizes::line_size))]
pub(crate) fn next_line(text: &[u8]) -> Option<(&[u8], &[u8])>
    ensures parts { MatchOption result
        (parts_of text.now ≡ text.now ∷ [])
        (λ split. parts_of text.now ≡ split.0.now ∷ parts_of split.1.now) }
    ensures sizes { IfSome result
        (λ split. length text.now ≡ length split.0.now + 1 + length split.1.now) }
{
    split_line(text)
}

impl Reader {
    /// Reads the line of this number, and returns its fault.
    fn step<'a>(
        &mut self,
        number: usize,
        alloc: Global,
        line: &'a [u8],
    ) -> Result<Option<Fault<'a>>, NoMemory>
        requires { length line.now ≤ 0x10_0000 }
        ensures { IfOk result
            (λ fault. step_of self.new fault ≡ step number (reader_of self.old) line.now) }
    {
        let context = self.context();
        match self.read(number, alloc, line) {
            Ok(()) => {
                self.lead_on(line);
                Ok(None)
            }
            Err(TextFaultKind::NoMemory) => Err(NoMemory),
            Err(kind) => {
                self.leave_out(line);
                Ok(Some(Fault {
                    line: number,
                    kind,
                    place: line_place(context, number, line, kind),
                }))
            }
        }
    }
}

/// Reads the line of this number and keeps its fault. Returns whether the lines behind it are
/// judged.
fn read_on<'a>(
    alloc: Global,
    reader: &mut Reader,
    number: usize,
    line: &'a [u8],
    found: &mut Vec<Fault<'a>>,
) -> Result<bool, NoMemory>
    requires { length line.now ≤ 0x10_0000 }
    ensures { IfOk result (λ on. (rest : ReaderView → List FaultView) →
        map fault_of found.new.items ++ (if on then rest (reader_of reader.new) else [])
        ≡ map fault_of found.old.items ++
        followed (step number (reader_of reader.old) line.now) rest) }
{
    match reader.step(number, alloc, line)? {
        Some(fault) => {
            keep(found, fault)?;
            Ok(reader.goes_on())
        }
        None => Ok(true),
    }
}

/// Appends the faults of a text that ends in front of the line of this number.
fn push_ended<'a>(
    alloc: Global,
    text: &'a [u8],
    reader: &Reader,
    number: usize,
    found: &mut Vec<Fault<'a>>,
) -> Result<(), NoMemory>
    requires { length text.now ≤ 0x10_0000 }
    ensures { OnOk result (map fault_of found.new.items ≡ map fault_of found.old.items
        ++ ended (parts_of text.now) (stage_of reader.now.stage) reader.now.faulty number) }
{
    match &reader.stage {
        Stage::Threads(_) if reader.faulty => Ok(()),
        Stage::Threads(reading) => push_missed(alloc, text, reading, found),
        Stage::Start | Stage::Processors(_) => keep(found, text_ends(number, &reader.stage)),
    }
}

/// The faults of a text that is not too long.
fn faults_in<'a>(alloc: Global, text: &'a [u8]) -> Result<Vec<Fault<'a>>, NoMemory>
    requires { length text.now ≤ 0x10_0000 }
    ensures { IfOk result (λ found. map fault_of found.items
        ≡ faults_from (parts_of text.now) (parts_of text.now) not_read 1) }
{
    let mut found = Vec::new(alloc);
    let mut reader = Reader::new();
    let mut rest = text;
    let mut number = 1;
    'lines: while let Some((line, others)) = next_line(rest) {
        if !read_on(alloc, &mut reader, number, line, &mut found)? {
            return Ok(found);
        }
        rest = others;
        number += 1;
    }
    if rest.is_empty() {
        push_ended(alloc, text, &reader, number, &mut found)?;
    } else {
        keep(&mut found, unended(number, rest))?;
    }
    Ok(found)
}
