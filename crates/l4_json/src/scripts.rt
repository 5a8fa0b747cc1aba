//! At which lines of a machine text instructions stand.
ghost use Rattle.std.specs.Prelude.{◌≡◌, ◌+◌, ◌-◌, ◌++◌, ◌∷◌, [], ℕ, List, IfOk, OnOk, length, map};
ghost use Rattle.std.specs.Prelude.{option_and_then, replicate, slice_get};
ghost use Rattle.l4_words.specs.Lines.{parts_of};
ghost use Rattle.l4_script.specs.Lines.{is_skipped};
ghost use Rattle.l4_script.specs.Machines.{last_thread};
ghost use Rattle.l4_script.specs.Inner.Second.{stage_of};
ghost use Rattle.l4_script.specs.Second.Texts.{Start};
ghost use Rattle.l4_json.specs.Lines.{all_but_last};
ghost use Rattle.l4_json.specs.Scripts.{EachHasLine, declares_thread, groups, script_lines};
ghost use Rattle.l4_json.specs.Scripts.{first_script_lines, lengthened, lines_of, second_script_lines};
ghost use Rattle.l4_json.specs.Scripts.{stage_after, with_line, with_line_by};

use crate::rows::first_word;
use l4_script::text::TextFaultKind;
use l4_script::text::second::{Reading, Stage, begins_second};
use l4_types::errors::NoMemory;
use l4_words::lines::split_line;
use std::alloc::Global;
use std::marker::Model;
use std::mem;

// Whether a line says nothing.
fn is_skipped(line: &[u8]) -> bool
    ensures { result ≡ is_skipped line.now }
{
    line.is_empty() || line[0] == b';'
}

// Whether a line declares a thread.
fn declares_thread(line: &[u8]) -> bool
    ensures { result ≡ declares_thread line.now }
{
    first_word(line).0 == b"thread".as_slice()
}

// Adds the line of this number to the groups of lines: one that says nothing to none, one that
// declares a thread begins a group.
fn add_line(
    alloc: Global,
    line: &[u8],
    number: u64,
    finished: &mut Vec<Vec<u64>>,
    current: &mut Vec<u64>,
) -> Result<(), NoMemory>
    ensures { OnOk result ((lines : List (List ℕ)) →
        map (λ group. group.items) finished.new.items ++ groups lines (number + 1) current.new.items
        ≡ map (λ group. group.items) finished.old.items ++
        groups (line.now ∷ lines) number current.old.items) }
{
    if is_skipped(line) {
        return Ok(());
    }
    if declares_thread(line) {
        finished.push(mem::replace(current, Vec::new(alloc)))?;
        return Ok(());
    }
    current.push(number)?;
    Ok(())
}

// The lines of a text with scripts of version 1.
fn first_lines(alloc: Global, text: &[u8]) -> Result<Vec<Vec<u64>>, NoMemory>
    ensures { IfOk result (λ scripts. map (λ lines. lines.items) scripts.items ≡
        first_script_lines (all_but_last (parts_of text.now))) }
{
    let mut groups = Vec::new(alloc);
    let mut current = Vec::new(alloc);
    let mut left = text;
    let mut number = 1;
    while let Some((line, rest)) = split_line(left) {
        add_line(alloc, line, number, &mut groups, &mut current)?;
        number += 1;
        left = rest;
    }
    groups.push(current)?;
    let _ = groups.remove(0);
    Ok(groups)
}

// The lines of the thread at a place, or none.
fn lines_of(
    alloc: Global,
    scripts: &[Vec<u64>],
    source: Option<usize>,
) -> Result<Vec<u64>, NoMemory>
    ensures { IfOk result (λ lines. lines.items ≡
        lines_of (map (λ lines. lines.items) scripts.now) source) }
{
    let Some(place) = source else {
        return Ok(Vec::new(alloc));
    };
    match scripts.get(place) {
        Some(lines) => Ok(Vec::from_slice(alloc, lines.as_slice())?),
        None => Ok(Vec::new(alloc)),
    }
}

// Adds threads that have these lines until there are so many.
fn add_scripts(
    alloc: Global,
    count: usize,
    lines: &[u64],
    scripts: &mut Vec<Vec<u64>>,
) -> Result<(), NoMemory>
    ensures { OnOk result (map (λ lines. lines.items) scripts.new.items ≡
        map (λ lines. lines.items) scripts.old.items ++
        replicate (count - length scripts.old.items) lines.now) }
{
    'threads: while scripts.len() < count {
        scripts.push(Vec::from_slice(alloc, lines)?)?;
    }
    Ok(())
}

// The line of this number is one of the last thread, which has so many instructions, if it has
// fewer lines.
fn lengthen(number: u64, size: usize, scripts: &mut Vec<Vec<u64>>) -> Result<(), NoMemory>
    ensures { OnOk result (map (λ lines. lines.items) scripts.new.items ≡
        lengthened number size (map (λ lines. lines.items) scripts.old.items)) }
{
    let Some(last) = scripts.len().checked_sub(1) else {
        return Ok(());
    };
    let lines = &mut scripts[last];
    if lines.len() < size {
        lines.push(number)?;
    }
    Ok(())
}

// How many instructions the last thread has.
fn last_size(reading: &Reading<'_>) -> usize
    ensures { result ≡ length (last_thread reading.now.machine).script }
{
    match reading.machine().threads().last() {
        Some(thread) => thread.script().len(),
        None => 0,
    }
}

// Adds the line of this number, by what was read of the text up to it.
fn add_line_read(
    alloc: Global,
    reading: &Reading<'_>,
    number: u64,
    scripts: &mut Vec<Vec<u64>>,
) -> Result<(), NoMemory>
    ensures { OnOk result (map (λ lines. lines.items) scripts.new.items ≡
        with_line number reading.now (map (λ lines. lines.items) scripts.old.items)) }
{
    let count = reading.machine().threads().len();
    if scripts.len() < count {
        let lines = lines_of(alloc, scripts.as_slice(), reading.heir_of())?;
        return add_scripts(alloc, count, lines.as_slice(), scripts);
    }
    lengthen(number, last_size(reading), scripts)
}

// Adds the line of this number, if threads may be declared there.
fn add_line_at(
    alloc: Global,
    stage: &Stage<'_>,
    number: u64,
    scripts: &mut Vec<Vec<u64>>,
) -> Result<(), NoMemory>
    ensures { OnOk result (map (λ lines. lines.items) scripts.new.items ≡
        with_line_by number (stage_of stage.now) (map (λ lines. lines.items) scripts.old.items)) }
{
    match stage {
        Stage::Threads(reading) => add_line_read(alloc, reading, number, scripts),
        Stage::Start | Stage::Processors(_) => Ok(()),
    }
}

// Reads the line of this number, unless it is faulty.
fn read_on<'a>(
    alloc: Global,
    line: &'a [u8],
    number: usize,
    stage: &mut Stage<'a>,
) -> Result<(), NoMemory>
    ensures { OnOk result (stage_of stage.new ≡
        stage_after number (stage_of stage.old) line.now) }
{
    match stage.read_line(number, alloc, line) {
        Err(TextFaultKind::NoMemory) => Err(NoMemory),
        _ => Ok(()),
    }
}

// The lines of a text with scripts of version 2.
fn second_lines(alloc: Global, text: &[u8]) -> Result<Vec<Vec<u64>>, NoMemory>
    ensures { IfOk result (λ scripts. map (λ lines. lines.items) scripts.items ≡
        second_script_lines (all_but_last (parts_of text.now)) 1 Start []) }
{
    let mut scripts = Vec::new(alloc);
    let mut stage = Stage::Start;
    let mut left = text;
    let mut number = 1;
    'lines: while let Some((line, rest)) = split_line(left) {
        read_on(alloc, line, number, &mut stage)?;
        add_line_at(alloc, &stage, number as u64, &mut scripts)?;
        number += 1;
        left = rest;
    }
    Ok(scripts)
}

/// For each thread of a machine text, the numbers of the lines of its instructions, in order.
#[derive(Debug, Drop)]
pub struct ScriptLines {
    scripts: Vec<Vec<u64>>,
}

impl Model for ScriptLines {
    ghost use Rattle.std.specs.Prelude.{ℕ, List, map};

    ghost Value = { List (List ℕ) };

    ghost view = { λ s. map (λ lines. lines.items) s.scripts.items };
}

impl ScriptLines {
    /// Those of a text that declares a machine.
    ///
    /// `NoMemory`: memory was refused.
    pub fn of(alloc: Global, text: &[u8]) -> Result<ScriptLines, NoMemory>
        ensures { IfOk result (λ lines. lines ≡ script_lines text.now) }
    {
        let scripts = if begins_second(text) {
            second_lines(alloc, text)?
        } else {
            first_lines(alloc, text)?
        };
        Ok(ScriptLines { scripts })
    }

    /// The line of an instruction, by the places of its thread and of it, both counted from 0.
    pub fn line(&self, thread: usize, place: usize) -> Option<u64>
        ensures { result ≡ option_and_then (λ lines. slice_get lines place) (slice_get self.now thread) }
    {
        self.scripts.get(thread)?.get(place).copied()
    }
}

/// A text that declares a machine has a line for each instruction of each thread, and no other.
pub fn law_script_lines()
    ensures { EachHasLine }
{}
