//! Threads that are stuck for ever, as an answer tells them.
ghost use Rattle.std.specs.Prelude.{◌≡◌, ◌<◌, ◌++◌, IfOk, OnOk, codes, false, filter, min};
ghost use Rattle.std.specs.Prelude.{slice_get, true};
ghost use Rattle.std.specs.String.{string_bytes};
ghost use Rattle.l4_explore.specs.Tries.{deepest};
ghost use Rattle.l4_questions.specs.Limits.{most_looked};
ghost use Rattle.l4_stuck.specs.Stuck.{stuck_from, stuck_of, AreStuckThreads, IsStuck};
ghost use Rattle.l4_questions.specs.Stuck.{asks_who_is_stuck, counts_at, cut_status, declared_word};
ghost use Rattle.l4_questions.specs.Stuck.{is_any};
ghost use Rattle.l4_questions.specs.Stuck.{stuck_line};
ghost use Rattle.l4_questions.specs.Stuck.{stuck_lines, stuck_status, AreAllStuck, AreAskedStuck};

use crate::question::{Question, Wanted};
use crate::resting::counts;
use l4_explore::progress::Progress;
use l4_outlooks::know_times;
use l4_script::machine::Machine;
use l4_stuck::{FoundThreads, StuckThread, stuck_threads};
use l4_types::errors::NoMemory;
use l4_words::spelling::push_thread;
use std::alloc::Global;

// Whether an answer tells which threads get stuck for ever.
fn asks_who_is_stuck(question: &Question<'_>) -> bool
    ensures { result ≡ asks_who_is_stuck question.now }
{
    question.stuck && question.with_line.is_none() && question.never.is_none()
}

/// The threads that may get stuck for ever, where a question asks for them, and counts them.
///
/// `NoMemory`: memory was refused.
pub(crate) fn asked_stuck<P: Progress>(
    alloc: Global,
    machine: &Machine,
    question: &Question<'_>,
    depth: u32,
    most: u32,
    progress: &mut P,
) -> Result<FoundThreads, NoMemory>
    requires depth { min depth deepest ≡ question.now.depth }
    requires most { most ≡ most_looked machine.now question.now }
    requires some { 0 < most }
    ensures { IfOk result (λ r. AreAskedStuck machine.now question.now (stuck_of r.threads.items)
        r.is_whole) }
{
    if asks_who_is_stuck(question) {
        let found = stuck_threads(alloc, machine, depth, most, progress)?;
        return Ok(told_of(machine, question, found));
    }
    Ok(FoundThreads {
        threads: Vec::new(alloc),
        is_whole: true,
    })
}

// Whether a question counts the thread at a place of the order of declaration.
fn counts_at(machine: &Machine, question: &Question<'_>, thread: usize) -> bool
    ensures { result ≡ counts_at machine.now question.now thread }
{
    match machine.threads().get(thread) {
        Some(declared) => counts(question, declared.id()),
        None => true,
    }
}

// Those of the threads that are stuck for ever which may not rest.
fn told_of(machine: &Machine, question: &Question<'_>, found: FoundThreads) -> FoundThreads
    ensures threads { stuck_of result.threads.items ≡
        filter (λ s. counts_at machine.now question.now s.thread) (stuck_of found.threads.items) }
    ensures whole { result.is_whole ≡ found.is_whole }
{
    let mut found = found;
    found
        .threads
        .retain(|stuck| counts_at(machine, question, stuck.thread));
    found
}

// Appends a space and the thread at a place of the order of declaration.
fn push_declared(line: &mut String, machine: &Machine, place: usize) -> Result<(), NoMemory>
    ensures { OnOk result (string_bytes line.new ≡ string_bytes line.old ++ codes " "
        ++ declared_word (slice_get machine.now.threads place)) }
{
    match machine.threads().get(place) {
        Some(declared) => Ok(push_thread(line, declared.id())?),
        None => Ok(line.push_str(" ")?),
    }
}

// Appends the line of a thread that is stuck for ever.
fn write_line(machine: &Machine, stuck: &StuckThread, lines: &mut Vec<u8>) -> Result<(), NoMemory>
    requires { IsStuck machine.now (stuck_from stuck.now) }
    ensures { OnOk result
        (lines.new.items ≡ lines.old.items ++ stuck_line machine.now (stuck_from stuck.now)) }
{
    know_times(machine);
    let mut line = String::new(*lines.allocator());
    line.push_str("stuck")?;
    push_declared(&mut line, machine, stuck.thread)?;
    writeln!(line, " for ever, steps {}", stuck.entries.len())?;
    lines.extend_from_slice(line.as_bytes())?;
    Ok(())
}

/// A line for each thread that is stuck for ever, and one where the search for them was cut.
///
/// `NoMemory`: memory was refused.
pub(crate) fn stuck_lines(
    alloc: Global,
    machine: &Machine,
    found: &FoundThreads,
) -> Result<Vec<u8>, NoMemory>
    requires { AreAllStuck machine.now found.now.threads.items }
    ensures { IfOk result (λ lines. lines.items ≡
        stuck_lines machine.now (stuck_of found.now.threads.items) found.now.is_whole) }
{
    let mut lines = Vec::new(alloc);
    for stuck in &found.threads {
        write_line(machine, stuck, &mut lines)?;
    }
    if found.is_whole {
        return Ok(lines);
    }
    lines.extend_from_slice(b"stuck for ever: cut\n")?;
    Ok(lines)
}

fn cut_status(status: u8) -> u8
    ensures { result ≡ cut_status status }
{
    if status == 0 { 3 } else { status }
}

/// The exit status of an answer that has this one without its stuck threads.
pub(crate) fn stuck_status(wanted: Wanted, found: &FoundThreads, status: u8) -> u8
    ensures { result ≡ stuck_status wanted (is_any (stuck_of found.now.threads.items))
        found.now.is_whole status }
{
    match wanted {
        Wanted::NoEnding if !found.threads.is_empty() => 4,
        Wanted::Whatever | Wanted::NoEnding if !found.is_whole => cut_status(status),
        _ => status,
    }
}
