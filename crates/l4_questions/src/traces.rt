//! The trace of one ending.
ghost use Rattle.std.specs.Prelude.{◌≡◌, ◌⊎◌, ◌++◌, ◌<◌, min, IfErr, IfOk, None, Some};
ghost use Rattle.std.specs.Prelude.{option_map, true};
ghost use Rattle.std.specs.List.{list_all, AllByRecursion};
ghost use Rattle.l4_questions.specs.Answers.{asked_traces, numbered, traces_along, IsTraceAnswer};
ghost use Rattle.l4_explore.specs.Tries.{deepest};
ghost use Rattle.l4_questions.specs.Inner.Found.{IsLed};
ghost use Rattle.l4_questions.specs.Walked.{IsAnyTrace, IsFirstTrace};
ghost use Rattle.l4_futures.specs.Traces.{trace_along};
ghost use Rattle.l4_questions.specs.Limits.{most_looked, question_fault};
ghost use Rattle.l4_questions.specs.declared.question.QuestionFault.TheVariants.{NoMemory as OutOfMemory};
ghost use Rattle.l4_questions.specs.Stuck.{stuck_traces, AreAllStuck};
ghost use Rattle.l4_stuck.specs.Stuck.{stuck_of};
ghost use Rattle.l4_trace.specs.Lines.{has_line, trace_of};

use crate::asked::is_asked;
use crate::listed::Listed;
use crate::question::{Question, QuestionFault};
use crate::stuck::asked_stuck;
use crate::walked::walked_ending;
use l4_all_endings::{all_endings, trace_of};
use l4_explore::progress::Progress;
use l4_history::history::History;
use l4_script::machine::Machine;
use l4_stuck::StuckThread;
use l4_trace::traces::TraceWriter;
use l4_types::errors::NoMemory;
use std::alloc::Global;

// The trace of the ending that an answer gives this number, or of the thread behind the endings.
fn numbered_history(
    alloc: Global,
    machine: &Machine,
    question: &Question<'_>,
    number: u64,
    endings: &[Vec<u32>],
    stuck: &[StuckThread],
) -> Result<Option<History>, NoMemory>
    requires led { AllByRecursion (IsLed machine.now) endings.now }
    requires stuck { AreAllStuck machine.now stuck.now }
    ensures { IfOk result (λ trace. option_map (λ h. h.steps) trace ≡ numbered number
        (asked_traces machine.now question.now (traces_along machine.now endings.now)
        ++ stuck_traces machine.now (stuck_of stuck.now))) }
{
    // How many come before it.
    let Some(mut before) = number.checked_sub(1) else {
        return Ok(None);
    };
    for entries in endings {
        let found = entries.ending(alloc, machine)?;
        if !is_asked(question, &found) {
            continue;
        }
        if before == 0 {
            return Ok(Some(trace_of(alloc, machine, entries)?));
        }
        before -= 1;
    }
    let Some(thread) = stuck.get(before as usize) else {
        return Ok(None);
    };
    Ok(Some(trace_of(alloc, machine, &thread.entries)?))
}

/// A line for each step of a trace.
///
/// `NoMemory`: memory was refused.
pub(crate) fn lines_of(alloc: Global, trace: &History) -> Result<Vec<u8>, NoMemory>
    ensures lines { IfOk result (λ lines. lines.items ≡ trace_of trace.now.steps) }
    ensures spelled { IfOk result (λ lines. list_all has_line trace.now.steps ≡ true) }
{
    let mut writer = TraceWriter::new(alloc);
    writer.write(trace.steps())?;
    Ok(writer.into_lines())
}

// The trace of this number, by a search for all endings.
fn searched_trace<P: Progress>(
    alloc: Global,
    machine: &Machine,
    question: &Question<'_>,
    number: u64,
    depth: u32,
    most: u32,
    progress: &mut P,
) -> Result<Option<Vec<u8>>, NoMemory>
    requires lawful { question_fault question.now ≡ None }
    requires depth { min depth deepest ≡ question.now.depth }
    requires most { most ≡ most_looked machine.now question.now }
    requires some { 0 < most }
    ensures { IfOk result (λ lines. IsTraceAnswer machine.now question.now number
        (option_map (λ l. l.items) lines)) }
{
    let found = all_endings(alloc, machine, depth, most, progress)?;
    let stuck = asked_stuck(alloc, machine, question, depth, most, progress)?;
    let trace = numbered_history(
        alloc,
        machine,
        question,
        number,
        &found.endings,
        &stuck.threads,
    )?;
    match trace {
        None => Ok(None),
        Some(trace) => Ok(Some(lines_of(alloc, &trace)?)),
    }
}

// The trace of an ending that a walk came to. It has the number 1.
fn walk_trace(
    alloc: Global,
    machine: &Machine,
    entries: &Vec<u32>,
    number: u64,
) -> Result<Option<Vec<u8>>, NoMemory>
    requires { IsLed machine.now entries.now }
    ensures { IfOk result (λ lines. IsFirstTrace (trace_along machine.now entries.now.items) number
        (option_map (λ l. l.items) lines)) }
{
    if number != 1 {
        return Ok(None);
    }
    let trace = trace_of(alloc, machine, entries)?;
    Ok(Some(lines_of(alloc, &trace)?))
}

/// The trace of the ending that the answer to a question gives this number, a line for each of its
/// steps. Threads that are stuck for ever are counted on behind the endings: the trace is that of a
/// history after which the thread is. None where the answer gives the number to neither. `progress`
/// hears how far the search has come.
///
/// `Depth`, `States`, `Memory` and `NoMemory` as of `answer`.
pub fn asked_trace<P: Progress>(
    alloc: Global,
    machine: &Machine,
    question: &Question<'_>,
    number: u64,
    progress: &mut P,
) -> Result<Option<Vec<u8>>, QuestionFault>
    ensures ok { IfOk result (λ lines. IsAnyTrace machine.now question.now number
        (option_map (λ l. l.items) lines)) }
    ensures err { IfErr result (λ fault. (fault ≡ OutOfMemory) ⊎
        (question_fault question.now ≡ Some fault)) }
{
    let (depth, most) = question.limits(machine)?;
    let lines = match walked_ending(alloc, machine, question, depth, most, progress)? {
        Some(entries) => walk_trace(alloc, machine, &entries, number)?,
        None => searched_trace(alloc, machine, question, number, depth, most, progress)?,
    };
    Ok(lines)
}
