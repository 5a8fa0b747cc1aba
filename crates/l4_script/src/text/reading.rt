//! How far a text has been read.
ghost use Rattle.std.specs.Prelude.{◌≡◌, ◌≢◌, ◌<◌, ◌≤◌, ◌∷◌, [], ◌++◌, find, length, IfErr};
ghost use Rattle.std.specs.Prelude.{MatchOption, OnErr, OnOk};
ghost use Rattle.l4_script.specs.declared.text.fault.TextFaultKind.TheVariants.{NoMemory as OutOfMemory};
ghost use Rattle.std.specs.Option.{option_copied};
ghost use Rattle.l4_model.specs.Machine.{most_processors};
ghost use Rattle.l4_types.specs.Inner.FormatView.{format_of};
ghost use Rattle.l4_script.specs.Inner.Headings.{heading_of};
ghost use Rattle.l4_script.specs.Judged.{Leads};
ghost use Rattle.l4_script.specs.Inner.Scripts.{instr_of};
ghost use Rattle.l4_script.specs.Statements.{declare, extend};
ghost use Rattle.l4_script.specs.Texts.{LeadsOn, nothing_read, targets_of, thread_line};
ghost use Rattle.l4_script.specs.Texts.{extended_at, after_words, after_line, judged_at, is_missed};
ghost use Rattle.l4_script.specs.Texts.{unless_missed, ended};
ghost use Rattle.l4_script.specs.Inner.Stages.{stage_of};

use super::fault::{TextFault, TextFaultKind};
use super::lines::words_of;
use super::statements::{Heading, declaration, format_line, instruction, processors_line};
use crate::instructions::Instr;
use crate::machine::{Declaration, MOST_INSTRUCTIONS, MOST_THREADS, Machine};
use l4_types::errors::NoMemory;
use l4_types::formats::Format;
use l4_words::words::Words;
use std::alloc::Global;
use std::marker::Model;

const THREAD: &[u8] = b"thread";

/// A `jump` or `onerr`: the number of its line, the place of its thread, and the instruction that
/// it names.
#[derive(Clone, Copy, Debug)]
pub struct Target {
    line: usize,
    thread: usize,
    place: u64,
}

impl Model for Target {
    ghost use Rattle.l4_script.specs.Texts.{Target as NamedPlace};

    ghost Value = { NamedPlace };

    ghost view = { λ t. record { line = t.line; thread = t.thread; place = t.place } };

    ghost inverse = { λ t. record { line = t.line; thread = t.thread; place = t.place } };
}

/// The format of the text, the machine of the lines so far, and the places that they name.
#[derive(Debug, Drop)]
pub struct Reading {
    format: Format,
    machine: Machine,
    targets: Vec<Target>,
}

impl Model for Reading {
    ghost use Rattle.l4_types.specs.Inner.FormatView.{format_of};
    ghost use Rattle.l4_script.specs.Texts.{Reading as ReadSoFar};

    ghost Value = { ReadSoFar };

    ghost view = { λ r. record {
      format = format_of r.format;
      machine = r.machine;
      targets = r.targets.items;
    } };
}

/// What comes next in a text.
#[derive(Debug, Drop)]
pub enum Stage {
    /// The `l4` line.
    Start,
    /// The `cpus` line, after such a first line.
    Processors(Heading),
    /// The lines of threads, after those that were read.
    Threads(Reading),
}

/// Declares one more thread.
#[tactic(auto, unfolding(crate::specs::Statements::declare))]
fn declare(thread: Declaration, machine: &mut Machine) -> Result<(), TextFaultKind>
    requires { thread.cpu < machine.old.cpus }
    ensures ok { Leads result machine.new (declare thread machine.old) }
    ensures err { OnErr result (machine.new ≡ machine.old) }
{
    if machine.threads().len() >= MOST_THREADS {
        return Err(TextFaultKind::TooManyThreads);
    }
    if machine.has_number(thread.id().number()) {
        return Err(TextFaultKind::DoubleId);
    }
    machine.declare(thread)?;
    Ok(())
}

/// Gives the last thread one more instruction.
#[tactic(auto, unfolding(crate::specs::Statements::extend))]
fn extend(instr: &Instr, machine: &mut Machine) -> Result<(), TextFaultKind>
    requires { 0 < length machine.old.threads }
    ensures ok { Leads result machine.new (extend (instr_of instr.now) machine.old) }
    ensures err { OnErr result (machine.new ≡ machine.old) }
{
    if machine.last_script_len() >= MOST_INSTRUCTIONS {
        return Err(TextFaultKind::TooManyInstructions);
    }
    machine.add_instruction(instr)?;
    Ok(())
}

/// The place that an instruction of a line names, if it names one.
fn named_place(line: usize, thread: usize, instr: &Instr) -> Option<Target>
    ensures { MatchOption result
        (targets_of line thread (instr_of instr.now) ≡ [])
        (λ target. targets_of line thread (instr_of instr.now) ≡ target ∷ []) }
{
    match *instr {
        Instr::Jump(place) | Instr::OnErr(place) => Some(Target {
            line,
            thread,
            place,
        }),
        _ => None,
    }
}

fn keep(targets: &mut Vec<Target>, target: Target) -> Result<(), NoMemory>
    ensures ok { OnOk result (targets.new.items ≡ targets.old.items ++ target ∷ []) }
    ensures err { OnErr result (targets.new.items ≡ targets.old.items) }
{
    targets.push(target)?;
    Ok(())
}

impl Target {
    /// The number of its line, counted from 1.
    pub fn line(&self) -> usize
        ensures { result ≡ self.now.line }
    {
        self.line
    }

    /// Whether its script is too short for the instruction that it names.
    pub fn is_missed(&self, machine: &Machine) -> bool
        ensures { result ≡ is_missed machine.now self.now }
    {
        let instructions = match machine.threads().get(self.thread) {
            Some(thread) => thread.script().len(),
            None => 0,
        };
        (instructions as u64) < self.place
    }
}

/// The first named place that its script does not have.
fn first_missed<'a>(machine: &Machine, targets: &'a [Target]) -> Option<&'a Target>
    ensures { option_copied result ≡ find (is_missed machine.now) targets.now }
{
    targets.iter().find(|target| target.is_missed(machine))
}

impl Reading {
    /// The state before the first thread, of a machine of `cpus` processors.
    fn new(alloc: Global, heading: Heading, cpus: u8) -> Reading
        requires some { 1 ≤ cpus }
        requires limit { cpus ≤ most_processors }
        ensures { result ≡ nothing_read (heading_of heading) cpus }
    {
        Reading {
            format: heading.format,
            machine: Machine::new(alloc, heading.retargeting, cpus),
            targets: Vec::new(alloc),
        }
    }

    /// The format of the text's words.
    pub fn format(&self) -> Format
        ensures { format_of result ≡ self.now.format }
    {
        self.format
    }

    /// The machine of the lines so far.
    pub fn machine(&self) -> &Machine
        ensures { result.now ≡ self.now.machine }
    {
        &self.machine
    }

    /// The `jump` and `onerr` lines so far, in order.
    pub fn targets(&self) -> &[Target]
        ensures { result.now ≡ self.now.targets }
    {
        self.targets.as_slice()
    }

    /// Appends the instruction of line `line` to the last thread.
    fn extend(&mut self, line: usize, instr: &Instr) -> Result<(), TextFaultKind>
        requires { 0 < length self.old.machine.threads }
        ensures kept { IfErr result (λ kind. kind ≢ OutOfMemory → self.new ≡ self.old) }
        ensures leads { Leads result self.new (extended_at line self.old (instr_of instr.now)) }
    {
        let target = named_place(line, self.machine.threads().len() - 1, instr);
        extend(instr, &mut self.machine)?;
        if let Some(target) = target {
            keep(&mut self.targets, target)?;
        }
        Ok(())
    }

    /// Reads what a line of this number says of threads.
    #[tactic(auto, unfolding(crate::specs::Texts::thread_line))]
    fn thread_line(
        &mut self,
        line: usize,
        alloc: Global,
        mut words: Words<'_>,
    ) -> Result<(), TextFaultKind>
        ensures kept { IfErr result (λ kind. kind ≢ OutOfMemory → self.new ≡ self.old) }
        ensures leads { Leads result self.new (thread_line line self.old words.entry) }
    {
        let name = words.next().ok_or(TextFaultKind::BadLine)?;
        if name == THREAD {
            let thread = declaration(alloc, self.format, self.machine.cpus(), words)?;
            return declare(thread, &mut self.machine);
        }
        if self.machine.threads().is_empty() {
            return Err(TextFaultKind::BadLine);
        }
        match &instruction(self.format, name, words) {
            Ok(instr) => self.extend(line, instr),
            Err(kind) => Err(*kind),
        }
    }

    /// The machine, unless some line names a place that its script does not have.
    fn unless_missed(self) -> Result<Machine, TextFault>
        ensures { result ≡ unless_missed self.machine (find (is_missed self.machine) self.targets) }
    {
        match first_missed(&self.machine, self.targets.as_slice()) {
            Some(target) => Err(TextFault::at(target.line, TextFaultKind::BadTarget)),
            None => Ok(self.machine),
        }
    }
}

impl Stage {
    /// Reads a line of words.
    #[tactic(auto, unfolding(crate::specs::Texts::after_words))]
    fn read_words(
        &mut self,
        line: usize,
        alloc: Global,
        words: Words<'_>,
    ) -> Result<(), TextFaultKind>
        ensures kept { IfErr result
            (λ kind. kind ≢ OutOfMemory → stage_of self.new ≡ stage_of self.old) }
        ensures leads { Leads result (stage_of self.new)
            (after_words line (stage_of self.old) words.entry) }
    {
        match self {
            Stage::Start => {
                let heading = format_line(words)?;
                *self = Stage::Processors(heading);
                Ok(())
            }
            Stage::Processors(heading) => {
                let cpus = processors_line(words)?;
                *self = Stage::Threads(Reading::new(alloc, *heading, cpus));
                Ok(())
            }
            Stage::Threads(reading) => reading.thread_line(line, alloc, words),
        }
    }

    /// Reads the line of this number, or returns its fault. A faulty line leaves the stage
    /// unchanged; refused memory may not.
    #[tactic(auto, unfolding(crate::specs::Texts::after_line))]
    pub fn read_line(
        &mut self,
        line: usize,
        alloc: Global,
        text: &[u8],
    ) -> Result<(), TextFaultKind>
        ensures kept { IfErr result
            (λ kind. kind ≢ OutOfMemory → stage_of self.new ≡ stage_of self.old) }
        ensures leads { Leads result (stage_of self.new)
            (after_line line (stage_of self.old) text.now) }
    {
        match words_of(text)? {
            None => Ok(()),
            Some(words) => self.read_words(line, alloc, words),
        }
    }

    /// Reads the line of this number, or returns its fault.
    pub(super) fn read_line_at(
        &mut self,
        line: usize,
        alloc: Global,
        text: &[u8],
    ) -> Result<(), TextFault>
        ensures { LeadsOn result (stage_of self.new)
            (judged_at line (after_line line (stage_of self.old) text.now) (λ stage. Ok stage)) }
    {
        match self.read_line(line, alloc, text) {
            Ok(()) => Ok(()),
            Err(kind) => Err(TextFault::at(line, kind)),
        }
    }

    /// The machine of a text that ends here, before the line of this number.
    pub(super) fn ended(self, line: usize) -> Result<Machine, TextFault>
        ensures { result ≡ ended (stage_of self) line }
    {
        match self {
            Stage::Threads(reading) => reading.unless_missed(),
            Stage::Start | Stage::Processors(_) => {
                Err(TextFault::at(line, TextFaultKind::BadLine))
            }
        }
    }
}
