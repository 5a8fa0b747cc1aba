//! The answer to the question whether a world on the way meets a condition.
ghost use Rattle.std.specs.Prelude.{◌≡◌, ◌⊎◌, ◌<◌, ◌++◌, IfErr, IfOk, IfSome, Some, option_map, true};
ghost use Rattle.std.specs.Option.{option_copied};
ghost use Rattle.l4_all_endings.specs.Tried.{LeadsToWorld};
ghost use Rattle.l4_questions.specs.Always.{IsAlwaysAnswer, IsAlwaysTrace, met_text, met_traces};
ghost use Rattle.l4_questions.specs.Always.{or_fewer, unmet_line, verdict_status, verdict_text};
ghost use Rattle.l4_questions.specs.Answers.{numbered, worlds_line};
ghost use Rattle.l4_questions.specs.Limits.{question_fault};
ghost use Rattle.l4_questions.specs.declared.question.QuestionFault.TheVariants.{NoMemory as OutOfMemory};

use crate::answering::whole_word;
use crate::judged::{Answer, status_of_search};
use crate::question::{Question, QuestionFault};
use crate::traces::lines_of;
use l4_all_endings::trace_of;
use l4_always::{Met, Verdict, verdict_of, world_lines_after};
use l4_expect::conditions::Condition;
use l4_explore::progress::Progress;
use l4_history::history::History;
use l4_outlooks::know_times;
use l4_script::machine::Machine;
use l4_types::errors::NoMemory;
use std::alloc::Global;

fn or_fewer(is_shortest: bool) -> &'static str
    ensures { result.now ≡ or_fewer is_shortest }
{
    if is_shortest { "" } else { " or fewer" }
}

fn unmet_line(is_whole: bool) -> &'static str
    ensures { result.now ≡ unmet_line is_whole }
{
    if is_whole {
        "never met\n"
    } else {
        "not met: cut\n"
    }
}

// How many steps lead to a world that meets a condition, and the lines of that world.
fn met_text(alloc: Global, machine: &Machine, met: &Met) -> Result<Vec<u8>, NoMemory>
    requires { LeadsToWorld machine.now met.now.entries.items }
    ensures { IfOk result (λ lines. lines.items ≡ met_text machine.now met.now) }
{
    know_times(machine);
    let fewer = or_fewer(met.is_shortest);
    let mut line = String::new(alloc);
    writeln!(line, "met, steps {}{fewer}", met.entries.len())?;
    let mut lines = line.into_bytes();
    let told = world_lines_after(alloc, machine, &met.entries)?;
    lines.extend_from_slice(&told)?;
    Ok(lines)
}

// What a search says of a condition.
fn verdict_text(
    alloc: Global,
    machine: &Machine,
    met: Option<&Met>,
    is_whole: bool,
) -> Result<Vec<u8>, NoMemory>
    requires { IfSome met (λ met. LeadsToWorld machine.now met.now.entries.items) }
    ensures { IfOk result (λ lines. lines.items
        ≡ verdict_text machine.now (option_copied met.entry) is_whole) }
{
    match met {
        Some(met) => met_text(alloc, machine, met),
        None => {
            let mut lines = Vec::new(alloc);
            lines.extend_from_slice(unmet_line(is_whole).as_bytes())?;
            Ok(lines)
        }
    }
}

// What a search says of itself.
fn worlds_line(alloc: Global, verdict: &Verdict) -> Result<Vec<u8>, NoMemory>
    ensures { IfOk result (λ line. line.items
        ≡ worlds_line verdict.now.worlds verdict.now.depth verdict.now.is_whole) }
{
    let end = whole_word(verdict.is_whole);
    let mut line = String::new(alloc);
    writeln!(
        line,
        "worlds {} steps {} {end}",
        verdict.worlds, verdict.depth
    )?;
    Ok(line.into_bytes())
}

// What a search says of a condition, and last of itself.
fn all_lines(alloc: Global, machine: &Machine, verdict: &Verdict) -> Result<Vec<u8>, NoMemory>
    requires { IfSome verdict.now.met (λ met. LeadsToWorld machine.now met.entries.items) }
    ensures { IfOk result (λ lines. lines.items
        ≡ verdict_text machine.now verdict.now.met verdict.now.is_whole
        ++ worlds_line verdict.now.worlds verdict.now.depth verdict.now.is_whole) }
{
    let mut lines = verdict_text(alloc, machine, verdict.met.as_ref(), verdict.is_whole)?;
    let last = worlds_line(alloc, verdict)?;
    lines.extend_from_slice(&last)?;
    Ok(lines)
}

fn verdict_status(verdict: &Verdict) -> u8
    ensures { result ≡ verdict_status verdict.now.met verdict.now.is_whole }
{
    match verdict.met {
        Some(_) => 4,
        None => status_of_search(verdict.is_whole),
    }
}

/// The answer to the question whether a world on the way meets a condition, whatever the scheduler
/// does and whatever time passes. Of the question it has the limits alone. `progress` hears how far
/// the search has come.
///
/// `Depth`, `States`, `Memory` and `NoMemory` as of `answer`.
pub fn always_answer<P: Progress>(
    alloc: Global,
    machine: &Machine,
    question: &Question<'_>,
    condition: &Condition<'_>,
    progress: &mut P,
) -> Result<Answer, QuestionFault>
    ensures ok { IfOk result (λ answer. IsAlwaysAnswer machine.now question.now condition.now
        answer.lines.items answer.unmet.items answer.status) }
    ensures err { IfErr result (λ fault. (fault ≡ OutOfMemory) ⊎
        (question_fault question.now ≡ Some fault)) }
{
    let (depth, most) = question.limits(machine)?;
    let verdict = verdict_of(alloc, machine, condition, depth, most, progress)?;
    Ok(Answer {
        lines: all_lines(alloc, machine, &verdict)?,
        unmet: Vec::new(alloc),
        status: verdict_status(&verdict),
    })
}

// The history of this number, of a world that meets a condition: it has the number 1.
fn numbered_history(
    alloc: Global,
    machine: &Machine,
    number: u64,
    met: Option<&Met>,
) -> Result<Option<History>, NoMemory>
    requires { IfSome met (λ met. LeadsToWorld machine.now met.now.entries.items) }
    ensures { IfOk result (λ trace. option_map (λ h. h.steps) trace
        ≡ numbered number (met_traces machine.now (option_copied met.entry))) }
{
    match met {
        Some(met) if number == 1 => Ok(Some(trace_of(alloc, machine, &met.entries)?)),
        _ => Ok(None),
    }
}

/// The trace of a history that comes to a world which meets a condition, a line for each of its
/// steps: it has the number 1. None where no such world was found, or the number is another one.
/// `progress` hears how far the search has come.
///
/// `Depth`, `States`, `Memory` and `NoMemory` as of `answer`.
pub fn always_trace<P: Progress>(
    alloc: Global,
    machine: &Machine,
    question: &Question<'_>,
    condition: &Condition<'_>,
    number: u64,
    progress: &mut P,
) -> Result<Option<Vec<u8>>, QuestionFault>
    ensures ok { IfOk result (λ lines. IsAlwaysTrace machine.now question.now condition.now number
        (option_map (λ l. l.items) lines)) }
    ensures err { IfErr result (λ fault. (fault ≡ OutOfMemory) ⊎
        (question_fault question.now ≡ Some fault)) }
{
    let (depth, most) = question.limits(machine)?;
    let verdict = verdict_of(alloc, machine, condition, depth, most, progress)?;
    match numbered_history(alloc, machine, number, verdict.met.as_ref())? {
        None => Ok(None),
        Some(trace) => Ok(Some(lines_of(alloc, &trace)?)),
    }
}
