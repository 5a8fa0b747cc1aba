//! How far a text has been read.
ghost use Rattle.std.specs.Prelude.{◌≡◌, ◌≢◌, false, IfErr};
ghost use Rattle.l4_types.specs.Inner.FormatView.{format_of};
ghost use Rattle.l4_script.specs.Judged.{Leads};
ghost use Rattle.l4_script.specs.Inner.Stages.{stage_of};
ghost use Rattle.l4_script.specs.Texts.{Start};
ghost use Rattle.l4_script.specs.declared.text.fault.TextFaultKind.TheVariants as kinds;
ghost use Rattle.l4_lint.specs.Contexts.{context_at};
ghost use Rattle.l4_lint.specs.Reading.{reader, goes_on, instruction_form};
ghost use Rattle.l4_lint.specs.Reading.{lost_form, is_lost, judged, led_on, left_out};
ghost use Rattle.l4_lint.specs.Inner.Views.{context_of, reader_of};

use crate::commands::begins_script;
use crate::contexts::Context;
use l4_script::text::{Stage, TextFaultKind, instruction, words_of};
use l4_types::formats::Format;
use std::alloc::Global;

/// How far a text has been read.
#[derive(Drop)]
pub(crate) struct Reader {
    /// What comes next.
    pub(crate) stage: Stage,
    /// Whether the last line that began with `thread` was faulty: what follows is a script of no
    /// thread.
    pub(crate) lost: bool,
    /// Whether any line was faulty.
    pub(crate) faulty: bool,
}

/// Judges a line as an instruction.
fn instruction_form(format: Format, line: &[u8]) -> Result<(), TextFaultKind>
    ensures { result ≡ instruction_form (format_of format) line.now }
{
    let Some(mut words) = words_of(line)? else {
        return Ok(());
    };
    let Some(name) = words.next() else {
        return Ok(());
    };
    match instruction(format, name, words) {
        Ok(_) => Ok(()),
        Err(kind) => Err(kind),
    }
}

/// Judges a line of a script of no thread.
fn lost_form(stage: &Stage, line: &[u8]) -> Result<(), TextFaultKind>
    ensures { result ≡ lost_form (stage_of stage.now) line.now }
{
    match stage {
        Stage::Threads(reading) => instruction_form(reading.format(), line),
        Stage::Start | Stage::Processors(_) => Ok(()),
    }
}

impl Reader {
    /// A reader that has read no line.
    pub(crate) fn new() -> Reader
        ensures { reader_of result ≡ reader Start false false }
    {
        Reader {
            stage: Stage::Start,
            lost: false,
            faulty: false,
        }
    }

    /// What the lines before the next one say about it.
    pub(crate) fn context(&self) -> Context
        ensures { context_of result ≡ context_at (stage_of self.now.stage) self.now.lost }
    {
        Context::at(&self.stage, self.lost)
    }

    /// Whether what stands behind a faulty line is judged.
    pub(crate) fn goes_on(&self) -> bool
        ensures { result ≡ goes_on (stage_of self.now.stage) }
    {
        matches!(self.stage, Stage::Threads(_))
    }

    /// Whether a line stands in a script of no thread.
    fn is_lost(&self, line: &[u8]) -> bool
        ensures { result ≡ is_lost (reader_of self.now) line.now }
    {
        self.lost && !begins_script(line)
    }

    /// Reads the line of this number. A faulty line leaves the reader as it was, unless memory is
    /// refused.
    pub(crate) fn read(
        &mut self,
        number: usize,
        alloc: Global,
        line: &[u8],
    ) -> Result<(), TextFaultKind>
        ensures same { self.new.lost ≡ self.old.lost }
        ensures faults { self.new.faulty ≡ self.old.faulty }
        ensures kept { IfErr result
            (λ kind. kind ≢ kinds.NoMemory → stage_of self.new.stage ≡ stage_of self.old.stage) }
        ensures leads { Leads result (stage_of self.new.stage)
            (judged number (reader_of self.old) line.now) }
    {
        if self.is_lost(line) {
            return lost_form(&self.stage, line);
        }
        self.stage.read_line(number, alloc, line)
    }

    /// Goes on behind a line without a fault.
    pub(crate) fn lead_on(&mut self, line: &[u8])
        ensures { reader_of self.new
            ≡ led_on (reader_of self.old) line.now (stage_of self.old.stage) }
    {
        self.lost = self.is_lost(line);
    }

    /// Goes on behind a faulty line.
    pub(crate) fn leave_out(&mut self, line: &[u8])
        ensures { reader_of self.new ≡ left_out (reader_of self.old) line.now }
    {
        self.lost = self.lost || begins_script(line);
        self.faulty = true;
    }
}
