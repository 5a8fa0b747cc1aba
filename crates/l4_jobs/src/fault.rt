//! What the program reports on standard error, one line each.
ghost use Rattle.std.specs.Prelude.{◌≡◌, IfOk, MatchResult, false, true};
ghost use Rattle.l4_jobs.specs.Audits.{fault_of_reading};
ghost use Rattle.l4_jobs.specs.ChartJobs.{fault_of_list};
ghost use Rattle.l4_jobs.specs.Expectations.{fault_of_expect};
ghost use Rattle.l4_jobs.specs.FaultLines.{kind_word, wrong_word, fault_line, line_in_parts};
ghost use Rattle.l4_jobs.specs.FaultLines.{IsReported};
ghost use Rattle.l4_jobs.specs.Inputs.{IsUnread, reason_of};
ghost use Rattle.l4_jobs.specs.Jobs.{text_fault};
ghost use Rattle.l4_jobs.specs.Schedules.{fault_of_run};
ghost use Rattle.l4_jobs.specs.Searches.{fault_of_question};
ghost use Rattle.l4_jobs.specs.declared.fault.Fault.TheVariants.{NoMemory as OutOfMemory};

use crate::streams::{NotWritten, Sink};
use itoa::Buffer;
use l4_chart::threads::ThreadsFault;
use l4_expect::expectations::ExpectFault;
use l4_expect::judging::Wrong;
use l4_questions::question::QuestionFault;
use l4_replay::RunFault;
use l4_script::text::{TextFault, TextFaultKind};
use l4_trace::fault::TraceFault;
use l4_types::errors::NoMemory;
use std::alloc::Global;
use std::fmt;
use std::io::ErrorKind;
use thiserror::Error;

/// Why a job was not done. Its line is `l4run: ` and what its `Display` says.
#[derive(Debug, Drop, Error)]
pub enum Fault<'a> {
    /// The machine text is faulty.
    #[error("line {line}: {}", spelled_kind(*.kind))]
    Text {
        /// The faulty line, counted from 1, or 0 where the text as a whole is faulty.
        line: usize,
        /// What is wrong there.
        kind: TextFaultKind,
    },
    /// The number of turns is 0 or above 1,000,000, or a schedule is too long. Without a file, that
    /// is above 1,000,000 items. In a file, it is above 1,000,015 items or 32 MiB.
    #[error("turns out of range")]
    Turns,
    /// The depth of a search is 0 or above 1,000,000.
    #[error("depth out of range")]
    Depth,
    /// The number of worlds or states of a search is 0 or above 100,000,000.
    #[error("states out of range")]
    States,
    /// The memory for them is 0 or above 1,048,576 MiB.
    #[error("memory out of range")]
    Memory,
    /// No ending that is asked for has the number whose trace is asked for.
    #[error("ending out of range")]
    Ending,
    /// This item of the schedule, counted from 1, is no item, or names no processor of the machine.
    #[error("schedule item {0}")]
    Schedule(usize),
    /// This item of the list of threads, counted from 1, is the first that is no thread of the
    /// machine.
    #[error("threads item {0}")]
    Threads(usize),
    /// This line of the trace, counted from 1, is the first that spells no step, or has no line
    /// end.
    #[error("trace line {0}")]
    Trace(usize),
    /// This step of the trace, counted from 1, is the first that is not possible.
    #[error("refused at step {0}")]
    Refused(usize),
    /// This line of the expectations, counted from 1, is the first that no report can have, and
    /// why.
    #[error("expectation line {0}: {wrong}", wrong = spelled_wrong(*.1))]
    Expectation(usize, Wrong),
    /// This line of a condition, or of those that are asked of endings, counted from 1, is the first
    /// that can't be asked for, and why.
    #[error("condition line {0}: {wrong}", wrong = spelled_wrong(*.1))]
    Condition(usize, Wrong),
    /// Memory was refused.
    #[error("no memory")]
    NoMemory,
    /// This file can't be opened or read, and why.
    #[error("cannot read {0}")]
    Read(&'a str, Reason),
    /// This file can't be written, or is one that the job reads.
    #[error("cannot write {0}")]
    Unwritten(&'a str),
    /// The output is closed or full.
    #[error("cannot write")]
    Write,
}

/// Why a file can't be opened or read, as far as the system tells it.
#[derive(Clone, Copy, Debug, PartialEq, Eq)]
pub enum Reason {
    /// There is no file of this name.
    NoSuchFile,
    /// It is a directory.
    IsDirectory,
    /// The system does not allow it.
    NotAllowed,
    /// Another error.
    Untold,
}

impl From<TextFault> for Fault<'_> {
    ghost from_gives = { λ of fault. fault ≡ text_fault of.line of.kind };

    fn from(fault: TextFault) -> Self {
        match fault.kind {
            TextFaultKind::NoMemory => Fault::NoMemory,
            kind => Fault::Text {
                line: fault.line,
                kind,
            },
        }
    }
}

impl From<RunFault> for Fault<'_> {
    ghost from_gives = { λ of fault. fault ≡ fault_of_run of };

    fn from(fault: RunFault) -> Self {
        match fault {
            // No job gathers processors, so `Strangers` never comes.
            RunFault::NoMemory | RunFault::Strangers => Fault::NoMemory,
            RunFault::Turns => Fault::Turns,
            RunFault::Schedule(place) => Fault::Schedule(place),
        }
    }
}

impl From<TraceFault> for Fault<'_> {
    ghost from_gives = { λ of fault. fault ≡ fault_of_reading of };

    fn from(fault: TraceFault) -> Self {
        match fault {
            TraceFault::NoMemory => Fault::NoMemory,
            TraceFault::Line(line) => Fault::Trace(line),
        }
    }
}

impl From<ThreadsFault> for Fault<'_> {
    ghost from_gives = { λ of fault. fault ≡ fault_of_list of };

    fn from(fault: ThreadsFault) -> Self {
        match fault {
            ThreadsFault::NoMemory => Fault::NoMemory,
            ThreadsFault::Item(number) => Fault::Threads(number),
        }
    }
}

impl From<QuestionFault> for Fault<'_> {
    ghost from_gives = { λ of fault. fault ≡ fault_of_question of };

    fn from(fault: QuestionFault) -> Self {
        match fault {
            QuestionFault::NoMemory => Fault::NoMemory,
            QuestionFault::Line(line, wrong) => Fault::Condition(line, wrong),
            QuestionFault::Depth => Fault::Depth,
            QuestionFault::States => Fault::States,
            QuestionFault::Memory => Fault::Memory,
        }
    }
}

impl From<ExpectFault> for Fault<'_> {
    ghost from_gives = { λ of fault. fault ≡ fault_of_expect of };

    fn from(fault: ExpectFault) -> Self {
        match fault {
            ExpectFault::NoMemory => Fault::NoMemory,
            ExpectFault::Line(line, wrong) => Fault::Expectation(line, wrong),
        }
    }
}

impl From<NoMemory> for Fault<'_> {
    ghost from_gives = { λ _ fault. fault ≡ OutOfMemory };

    fn from(_: NoMemory) -> Self {
        Fault::NoMemory
    }
}

// The kind of a text's fault as its line names it.
fn spelled_kind(kind: TextFaultKind) -> &'static str
    ensures { result.now ≡ kind_word kind }
{
    match kind {
        TextFaultKind::TooLong => "TooLong",
        TextFaultKind::NoMemory => "NoMemory",
        TextFaultKind::BadLine => "BadLine",
        TextFaultKind::BadNumber => "BadNumber",
        TextFaultKind::BadId => "BadId",
        TextFaultKind::BadName => "BadName",
        TextFaultKind::BadCpu => "BadCpu",
        TextFaultKind::TypedItems => "TypedItems",
        TextFaultKind::DoubleId => "DoubleId",
        TextFaultKind::TooManyThreads => "TooManyThreads",
        TextFaultKind::TooManyInstructions => "TooManyInstructions",
        TextFaultKind::BadTarget => "BadTarget",
    }
}

// What is wrong with an expectation, as its fault's line names it.
fn spelled_wrong(wrong: Wrong) -> &'static str
    ensures { result.now ≡ wrong_word wrong }
{
    match wrong {
        Wrong::BadLine => "BadLine",
        Wrong::Unknown => "Unknown",
        Wrong::BadWord => "BadWord",
        Wrong::Deleted => "Deleted",
        Wrong::Number => "Number",
    }
}

// Writes a line in parts, of which all but the words may be empty.
fn put_line<'p, E: Sink>(
    faults: &mut E,
    words: &'p str,
    number: &'p str,
    colon: &'p str,
    name: &'p str,
) -> Result<(), NotWritten>
    ensures { MatchResult result
        (λ _. E.takes faults.old faults.new
        (line_in_parts words.now number.now colon.now name.now) true)
        (λ _. E.takes faults.old faults.new
        (line_in_parts words.now number.now colon.now name.now) false) }
{
    faults.put_parts(&["l4run: ", words, number, colon, name, "\n"])
}

// Writes the line of a fault, and takes no memory. Its words are those of the fault's `Display`,
// which has no contract.
fn put_fault<E: Sink>(faults: &mut E, fault: &Fault<'_>) -> Result<(), NotWritten>
    ensures { MatchResult result (λ _. E.takes faults.old faults.new (fault_line fault.now) true)
        (λ _. E.takes faults.old faults.new (fault_line fault.now) false) }
{
    let mut digits = Buffer::new();
    match fault {
        Fault::Text { line, kind } => {
            let kind = spelled_kind(*kind);
            put_line(faults, "line ", digits.format(*line), ": ", kind)
        }
        Fault::Turns => put_line(faults, "turns out of range", "", "", ""),
        Fault::Depth => put_line(faults, "depth out of range", "", "", ""),
        Fault::States => put_line(faults, "states out of range", "", "", ""),
        Fault::Memory => put_line(faults, "memory out of range", "", "", ""),
        Fault::Ending => put_line(faults, "ending out of range", "", "", ""),
        Fault::Schedule(item) => put_line(faults, "schedule item ", digits.format(*item), "", ""),
        Fault::Threads(item) => put_line(faults, "threads item ", digits.format(*item), "", ""),
        Fault::Trace(line) => put_line(faults, "trace line ", digits.format(*line), "", ""),
        Fault::Refused(step) => put_line(faults, "refused at step ", digits.format(*step), "", ""),
        Fault::Expectation(line, wrong) => {
            let wrong = spelled_wrong(*wrong);
            put_line(
                faults,
                "expectation line ",
                digits.format(*line),
                ": ",
                wrong,
            )
        }
        Fault::Condition(line, wrong) => {
            let wrong = spelled_wrong(*wrong);
            put_line(faults, "condition line ", digits.format(*line), ": ", wrong)
        }
        Fault::NoMemory => put_line(faults, "no memory", "", "", ""),
        Fault::Read(name, _) => put_line(faults, "cannot read ", "", "", name),
        Fault::Unwritten(name) => put_line(faults, "cannot write ", "", "", name),
        Fault::Write => put_line(faults, "cannot write", "", "", ""),
    }
}

/// The line of a fault.
///
/// `NoMemory`: memory was refused.
pub fn line_of(alloc: Global, fault: &Fault<'_>) -> Result<Vec<u8>, NoMemory>
    ensures { IfOk result (λ line. line.items ≡ fault_line fault.now) }
{
    let mut line = Vec::new(alloc);
    match put_fault(&mut line, fault) {
        Ok(()) => Ok(line),
        Err(_) => Err(NoMemory),
    }
}

/// Writes the line of a fault and returns the exit status 1. It is one write, unless memory for the
/// line is refused.
pub fn report<E: Sink>(alloc: Global, faults: &mut E, fault: &Fault<'_>) -> u8
    ensures told { IsReported (E.takes faults.old faults.new) fault.now }
    ensures status { result ≡ 1 }
{
    // Where this can't be written, only the status says so.
    let _ = match line_of(alloc, fault) {
        Ok(line) => faults.put(line.as_slice()),
        Err(_) => put_fault(faults, fault),
    };
    1
}

// Why a file can't be opened or read, by the kind of the error.
fn reason_of(kind: ErrorKind) -> Reason
    ensures { result ≡ reason_of kind }
{
    match kind {
        ErrorKind::NotFound => Reason::NoSuchFile,
        ErrorKind::IsADirectory => Reason::IsDirectory,
        ErrorKind::PermissionDenied => Reason::NotAllowed,
        _ => Reason::Untold,
    }
}

// The fault of the file of this name that can't be opened or read.
pub(crate) fn read_fault(name: &str, kind: ErrorKind) -> Fault<'_>
    ensures { IsUnread name.now kind result }
{
    match kind {
        ErrorKind::OutOfMemory => Fault::NoMemory,
        _ => Fault::Read(name, reason_of(kind)),
    }
}
