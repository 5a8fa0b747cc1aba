//! How far a text with scripts of version 2 has been read.
ghost use Rattle.std.specs.Prelude.{◌≡◌, ◌≢◌, false, IfErr};
ghost use Rattle.std.specs.Option.{option_copied};
ghost use Rattle.l4_script.specs.Judged.{Leads};
ghost use Rattle.l4_script.specs.Inner.Second.{stage_of};
ghost use Rattle.l4_script.specs.Second.Texts.{Start};
ghost use Rattle.l4_script.specs.declared.text.fault.TextFaultKind.TheVariants as kinds;
ghost use Rattle.l4_lint.specs.Second.Faults.{most_looked};
ghost use Rattle.l4_lint.specs.Second.Reading.{goes_on, instruction_form, is_lost, judged};
ghost use Rattle.l4_lint.specs.Second.Reading.{label_form};
ghost use Rattle.l4_lint.specs.Second.Reading.{led_on, left_out, lost_form, reader, words_form};
ghost use Rattle.l4_lint.specs.Inner.Views.{second_reader_of};

use super::parts::begins_script;
use l4_script::text::TextFaultKind;
use l4_script::text::second::{Reading, Stage, instruction, is_name, line_said};
use l4_words::words::Words;
use std::alloc::Global;

// Of so many faults it is told where a name is declared, since that takes as long as the text is.
const MOST_LOOKED: u8 = 64;

/// How far a text has been read.
#[derive(Drop)]
pub(super) struct Reader<'a> {
    /// What comes next.
    pub(super) stage: Stage<'a>,
    /// Whether the last line that began with `thread` was faulty: what follows is a script of no
    /// thread.
    pub(super) lost: bool,
    /// Whether any line was faulty.
    pub(super) faulty: bool,
    /// Of how many more faults it is told where a name is declared.
    pub(super) left: u8,
}

// Judges the name in front of a line.
fn label_form(label: Option<&[u8]>) -> Result<(), TextFaultKind>
    ensures { result ≡ label_form (option_copied label.entry) }
{
    match label {
        Some(label) if !is_name(label) => Err(TextFaultKind::BadName),
        _ => Ok(()),
    }
}

// Judges words as an instruction.
fn words_form(reading: &Reading<'_>, mut words: Words<'_>) -> Result<(), TextFaultKind>
    ensures { result ≡ words_form reading.now.format reading.now.names words.entry }
{
    let Some(name) = words.next() else {
        return Ok(());
    };
    match instruction(reading.format(), reading.names(), name, words) {
        Ok(_) => Ok(()),
        Err(kind) => Err(kind),
    }
}

// Judges a line as an instruction. What it names may be anywhere.
fn instruction_form(reading: &Reading<'_>, line: &[u8]) -> Result<(), TextFaultKind>
    ensures { result ≡ instruction_form reading.now.format reading.now.names line.now }
{
    match line_said(line)? {
        Some(said) => {
            label_form(said.label)?;
            words_form(reading, said.words)
        }
        None => Ok(()),
    }
}

// Judges a line of a script of no thread.
fn lost_form(stage: &Stage<'_>, line: &[u8]) -> Result<(), TextFaultKind>
    ensures { result ≡ lost_form (stage_of stage.now) line.now }
{
    match stage {
        Stage::Threads(reading) => instruction_form(reading, line),
        Stage::Start | Stage::Processors(_) => Ok(()),
    }
}

impl<'a> Reader<'a> {
    /// A reader that has read no line.
    pub(super) fn new() -> Reader<'a>
        ensures { second_reader_of result ≡ reader Start false false most_looked }
    {
        Reader {
            stage: Stage::Start,
            lost: false,
            faulty: false,
            left: MOST_LOOKED,
        }
    }

    /// Whether what stands behind a faulty line is judged.
    pub(super) fn goes_on(&self) -> bool
        ensures { result ≡ goes_on (stage_of self.now.stage) }
    {
        matches!(self.stage, Stage::Threads(_))
    }

    // Whether a line stands in a script of no thread.
    fn is_lost(&self, line: &[u8]) -> bool
        ensures { result ≡ is_lost (second_reader_of self.now) line.now }
    {
        self.lost && !begins_script(line)
    }

    /// Reads the line of this number. A faulty line leaves the reader as it was, unless memory is
    /// refused.
    pub(super) fn read(
        &mut self,
        number: usize,
        alloc: Global,
        line: &'a [u8],
    ) -> Result<(), TextFaultKind>
        ensures same { self.new.lost ≡ self.old.lost }
        ensures faults { self.new.faulty ≡ self.old.faulty }
        ensures looks { self.new.left ≡ self.old.left }
        ensures kept { IfErr result
            (λ kind. kind ≢ kinds.NoMemory → stage_of self.new.stage ≡ stage_of self.old.stage) }
        ensures leads { Leads result (stage_of self.new.stage)
            (judged number (second_reader_of self.old) line.now) }
    {
        if self.is_lost(line) {
            return lost_form(&self.stage, line);
        }
        self.stage.read_line(number, alloc, line)
    }

    /// Goes on behind a line without a fault.
    pub(super) fn lead_on(&mut self, line: &[u8])
        ensures { second_reader_of self.new
            ≡ led_on (second_reader_of self.old) line.now (stage_of self.old.stage) }
    {
        self.lost = self.is_lost(line);
    }

    /// Goes on behind a faulty line.
    pub(super) fn leave_out(&mut self, line: &[u8])
        ensures { second_reader_of self.new ≡ left_out (second_reader_of self.old) line.now }
    {
        self.lost = self.lost || begins_script(line);
        self.faulty = true;
        self.left = self.left.saturating_sub(1);
    }
}
