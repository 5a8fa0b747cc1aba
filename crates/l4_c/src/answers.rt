//! What a call answers.
ghost use Rattle.std.specs.Prelude.{◌≡◌, ◌⊎◌, IfErr, IfOk};
ghost use Rattle.l4_commands.specs.Files.{on_output};
ghost use Rattle.l4_jobs.specs.FaultLines.{fault_line};
ghost use Rattle.l4_jobs.specs.Outputs.{list_of};
ghost use Rattle.l4_jobs.specs.declared.fault.Fault.TheVariants.{NoMemory as OutOfMemory};
ghost use Rattle.l4_c.specs.Answers.{IsAnswer, IsAnswerFor, IsDoneOver, IsFaultyOver};
ghost use Rattle.l4_c.specs.Answers.{answered, recorded_of, refusal, told, told_fault};
ghost use Rattle.l4_c.specs.Files.{files_in};

use crate::files::{Files, Sources};
use crate::words::words_of;
use l4_explore::progress::Unheard;
use l4_jobs::done::Kept;
use l4_jobs::fault::{Fault, line_of};
use l4_jobs::job::Job;
use l4_jobs::rounds::{done_alone, in_rounds};
use l4_jobs::words::{WordsFault, job_of};
use l4_types::errors::NoMemory;
use std::alloc::Global;
use std::str;

/// What a call answers.
#[derive(Debug, Drop)]
pub struct Answer {
    /// What goes to the output.
    pub out: Vec<u8>,
    /// What goes to the faults.
    pub faults: Vec<u8>,
    /// The list that is recorded, where that is asked for.
    pub recorded: Vec<u8>,
    /// The exit status.
    pub status: u8,
}

/// The line of the fault that memory was refused.
pub const NO_MEMORY: &[u8] = b"l4run: no memory\n";

// What is told of words that are not UTF-8.
const NOT_UTF8: &[u8] = b"l4run: an argument is not UTF-8\n";

// Faults and a status, and nothing else.
fn fault_answer(alloc: Global, faults: Vec<u8>, status: u8) -> Answer
    ensures { answered result ≡ told faults.items status }
{
    Answer {
        out: Vec::new(alloc),
        faults,
        recorded: Vec::new(alloc),
        status,
    }
}

// The answer to words that ask for no job.
fn refused(alloc: Global, fault: &WordsFault) -> Result<Answer, NoMemory>
    ensures { IfOk result (λ answer. answered answer ≡ refusal fault.now) }
{
    match fault {
        WordsFault::Help(text) => Ok(Answer {
            out: Vec::from_slice(alloc, text.as_bytes())?,
            faults: Vec::new(alloc),
            recorded: Vec::new(alloc),
            status: 0,
        }),
        WordsFault::Usage(text) => Ok(fault_answer(
            alloc,
            Vec::from_slice(alloc, text.as_bytes())?,
            2,
        )),
        WordsFault::NoMemory => Err(NoMemory),
    }
}

// The text of the list that is recorded. Where none is, it is empty.
fn text_of(alloc: Global, list: Option<Kept<'_>>) -> Vec<u8>
    ensures { result.items ≡ recorded_of (list_of list.entry) }
{
    match list {
        Some(kept) => kept.text,
        None => Vec::new(alloc),
    }
}

// What a job comes to on these files. A run goes in rounds.
fn performed<'a>(alloc: Global, job: &Job<'a>, files: &Files<'_>) -> Result<Answer, Fault<'a>>
    ensures ok { IfOk result (λ answer. IsDoneOver job.now (files_in files.now) (answered answer)) }
    ensures err { IfErr result (λ fault. (fault ≡ OutOfMemory) ⊎
        IsFaultyOver job.now (files_in files.now) fault) }
{
    let Sources {
        mut machine,
        mut second,
        mut expects,
    } = files.sources(job)?;
    let done = done_alone(
        alloc,
        &in_rounds(job),
        &mut machine,
        &mut second,
        &mut expects,
        &mut Unheard,
    )?;
    Ok(Answer {
        out: done.lines,
        faults: done.said,
        recorded: text_of(alloc, done.list),
        status: done.status,
    })
}

// The answer to words that ask for a job.
fn answer_for(alloc: Global, job: &Job<'_>, files: &Files<'_>) -> Result<Answer, NoMemory>
    ensures { IfOk result (λ answer. (answered answer ≡ told_fault OutOfMemory) ⊎
        IsAnswerFor job.now (files_in files.now) (answered answer)) }
{
    match performed(alloc, job, files) {
        Ok(answer) => Ok(answer),
        Err(fault) => Ok(fault_answer(alloc, line_of(alloc, &fault)?, 1)),
    }
}

/// The answer to words, each of which is ended by a byte 0.
///
/// `NoMemory`: memory was refused. That is an answer of its own.
pub fn answer_of(alloc: Global, words: &[u8], files: &Files<'_>) -> Result<Answer, NoMemory>
    ensures { IfOk result (λ answer. IsAnswer words.now (files_in files.now) (answered answer)) }
{
    let Ok(text) = str::from_utf8(words) else {
        return Ok(fault_answer(alloc, Vec::from_slice(alloc, NOT_UTF8)?, 2));
    };
    let words = words_of(alloc, text)?;
    match job_of(alloc, words.as_slice()) {
        Ok(job) => answer_for(alloc, &job.on_output(false, 0), files),
        Err(fault) => refused(alloc, &fault),
    }
}
