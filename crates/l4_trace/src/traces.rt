//! The trace of a history.
ghost use Rattle.std.specs.Prelude.{◌≡◌, ◌+◌, ◌≤◌, ◌++◌, [], IfOk, OnOk, drop, length, map, true};
ghost use Rattle.std.specs.List.{list_all};
ghost use Rattle.l4_types.specs.StepView.{seen, step_of};
ghost use Rattle.l4_trace.specs.Lines.{has_line, line_of, trace_of};
ghost use Rattle.l4_trace.specs.Inner.Texts.{HasBefore};

use crate::lines::{
    LONGEST_LINE, append_line, write_delivery, write_line, write_name_line, write_thread_line,
};
use crate::texts::Texts;
use l4_history::steps::Steps;
use l4_history::visitor::Visitor;
use l4_types::errors::NoMemory;
use l4_types::step_ref::StepRef;
use l4_types::steps::Step;
use std::alloc::Global;

/// The trace of a history: the line of each of its steps.
pub fn trace(alloc: Global, history: &[Step]) -> Result<Vec<u8>, NoMemory>
    ensures lines { IfOk result (λ lines. lines.items ≡ trace_of (map step_of history.now)) }
    ensures spelled { IfOk result (λ lines. list_all has_line (map step_of history.now) ≡ true) }
{
    let mut lines = Vec::new(alloc);
    let mut line = [0; LONGEST_LINE];
    for step in history {
        append_line(&StepRef::from(step), &mut line, &mut lines)?;
    }
    Ok(lines)
}

// So many lines are written at once.
const BLOCK_LINES: usize = 8;

const BLOCK_BYTES: usize = BLOCK_LINES * LONGEST_LINE;

// Lines that are written from the last to the first, each just before the one that follows.
#[derive(Drop)]
struct Block {
    texts: Texts,
    bytes: Vec<u8>,
    // Where the first of the lines starts.
    start: usize,
}

impl Visitor for Block {
    ghost use Rattle.std.specs.Prelude.{◌≤◌, length};
    ghost use Rattle.l4_trace.specs.declared.lines.TheConstants.{LONGEST_LINE};
    ghost use Rattle.l4_trace.specs.Inner.Texts.{HasBefore};

    ghost is_ready = { λ block. (LONGEST_LINE ≤ block.start) ×
        (block.start ≤ length block.bytes.items) };

    ghost sees = { λ old step new. HasBefore old.bytes.items old.start step new.bytes.items
        new.start };

    #[inline(always)]
    fn visit(&mut self, step: StepRef<'_>) {
        let end = self.start;
        self.start = match &step {
            Step::Begin(name) => {
                write_name_line(b"begin", *name, &mut self.texts, &mut self.bytes, end)
            }
            Step::Queue(name) => {
                write_name_line(b"queue", *name, &mut self.texts, &mut self.bytes, end)
            }
            Step::Local(thread) => {
                write_thread_line(b"local", *thread, &mut self.texts, &mut self.bytes, end)
            }
            Step::Wait(thread) => {
                write_thread_line(b"wait", *thread, &mut self.texts, &mut self.bytes, end)
            }
            Step::ReceiveTimeout(thread) => {
                write_thread_line(b"rtimeout", *thread, &mut self.texts, &mut self.bytes, end)
            }
            Step::Deliver(delivery) => {
                write_delivery(delivery, &mut self.texts, &mut self.bytes, end)
            }
            other => write_rare(other, &mut self.texts, &mut self.bytes, end),
        };
    }
}

// The line of a step that is seldom told. It is a call: what is large in each place where a step is
// seen is not compiled in one piece there.
#[inline(never)]
fn write_rare(step: &StepRef<'_>, texts: &mut Texts, line: &mut [u8], end: usize) -> usize
    requires room { LONGEST_LINE ≤ end }
    requires within { end ≤ length line.old }
    ensures room { end ≤ result + LONGEST_LINE }
    ensures within { result ≤ end }
    ensures written { drop result line.new ≡ line_of (seen step.now) ++ drop end line.old }
    ensures spelled { has_line (seen step.now) ≡ true }
{
    write_line(step, texts, line, end)
}

impl Block {
    // Makes its room, where there is none.
    #[inline(always)]
    fn open(&mut self) -> Result<(), NoMemory>
        ensures { OnOk result (length self.new.bytes.items ≡ BLOCK_BYTES) }
    {
        if self.bytes.len() == BLOCK_BYTES {
            return Ok(());
        }
        self.make_room()
    }

    #[inline(never)]
    fn make_room(&mut self) -> Result<(), NoMemory>
        ensures { OnOk result (length self.new.bytes.items ≡ BLOCK_BYTES) }
    {
        self.texts.open()?;
        self.bytes.resize(BLOCK_BYTES, 0)?;
        Ok(())
    }

    // Writes the lines of some steps.
    #[inline(always)]
    fn write(&mut self, steps: Steps<'_>)
        requires room { length self.old.bytes.items ≡ BLOCK_BYTES }
        requires few { length steps ≤ BLOCK_LINES }
        ensures room { length self.new.bytes.items ≡ BLOCK_BYTES }
        ensures within { self.new.start ≤ BLOCK_BYTES }
        ensures lines { drop self.new.start self.new.bytes.items ≡ trace_of steps.entry }
        ensures spelled { list_all has_line steps.entry ≡ true }
    {
        let mut left = steps;
        self.start = BLOCK_BYTES;
        while !left.is_empty() {
            left.show_last(self);
        }
    }
}

/// A trace that is written as the steps of a history are told.
#[derive(Drop)]
pub struct TraceWriter {
    lines: Vec<u8>,
    // Some lines are written here first. One block serves all lines, since making one costs more
    // than writing most lines.
    block: Block,
}

impl TraceWriter {
    /// The trace of no step. It takes no memory.
    pub fn new(alloc: Global) -> TraceWriter
        ensures { result.lines.items ≡ [] }
    {
        TraceWriter {
            lines: Vec::new(alloc),
            block: Block {
                texts: Texts::new(alloc),
                bytes: Vec::new(alloc),
                start: 0,
            },
        }
    }

    /// Appends the lines of the next steps. `NoMemory`: memory was refused, and the lines of the
    /// first of these steps may have been written.
    pub fn write(&mut self, steps: Steps<'_>) -> Result<(), NoMemory>
        ensures lines { OnOk result (self.new.lines.items ≡ self.old.lines.items ++
            trace_of steps.entry) }
        ensures spelled { OnOk result (list_all has_line steps.entry ≡ true) }
    {
        self.block.open()?;
        let mut left = steps;
        while !left.is_empty() {
            self.block.write(left.take_first(BLOCK_LINES));
            self.lines
                .extend_from_slice(&self.block.bytes[self.block.start..])?;
        }
        Ok(())
    }

    /// The lines that were written.
    pub fn into_lines(self) -> Vec<u8>
        ensures { result.items ≡ self.lines.items }
    {
        self.lines
    }
}
