//! What a search for all endings comes to.
ghost use Rattle.std.specs.Prelude.{◌≡◌, ◌⊎◌, IfOk, IfErr, List, None, Ok, Option, Some, ℕ};
ghost use Rattle.std.specs.Option.{option_copied, option_map};
ghost use Rattle.l4_jobs.specs.Outputs.{output_of};
ghost use Rattle.l4_expect.specs.Conditions.{condition_of};
ghost use Rattle.l4_jobs.specs.Searches.{IsAnswerBy, IsAnswerDone, IsEndingsDone, IsSearchDone};
ghost use Rattle.l4_jobs.specs.Searches.{IsTraceDone, IsTraceOut, IsVerdictDone, IsVerdictOut};
ghost use Rattle.l4_jobs.specs.Searches.{asked_chart, fault_before, fault_of_endings};
ghost use Rattle.l4_jobs.specs.Searches.{fault_of_limits, fault_of_rests, fault_of_search};
ghost use Rattle.l4_jobs.specs.Searches.{question_of, shown_of, text_form, wanted_of};
ghost use Rattle.l4_jobs.specs.declared.fault.Fault.{Fault as ModelFault};
ghost use Rattle.l4_jobs.specs.declared.fault.Fault.TheVariants.{NoMemory as OutOfMemory};
ghost use Rattle.l4_chart.specs.Listings.{listing_of};
ghost use Rattle.l4_questions.specs.Beside.{chart_as, shown_as};
ghost use Rattle.l4_questions.specs.Limits.{question_fault};
ghost use Rattle.l4_questions.specs.declared.question.QuestionFault.TheVariants.{NoMemory as NoMemoryFor};

use crate::charts::{listed_threads, text_width};
use crate::done::Done;
use crate::fault::{Fault, line_of};
use crate::job::{EndingsJob, Scheduler, TextChart, Wanted as Asked};
use l4_chart::listing::Listing;
use l4_chart::whole::TextForm;
use l4_expect::conditions::Condition;
use l4_expect::expectations::{ExpectFault, Expectations};
use l4_explore::progress::Progress;
use l4_questions::beside::{AskedChart, Beside, Shown};
use l4_questions::question::{Question, QuestionFault, Wanted};
use l4_questions::{Answer, always_answer, always_trace, answer, asked_trace, placed_answer};
use l4_script::machine::Machine;
use l4_types::errors::NoMemory;
use std::alloc::Global;

fn wanted_of(asked: Asked) -> Wanted
    ensures { result ≡ wanted_of asked }
{
    match asked {
        Asked::Whatever => Wanted::Whatever,
        Asked::NoEnding => Wanted::NoEnding,
        Asked::AnEnding => Wanted::AnEnding,
    }
}

pub(crate) fn question_of<'a>(search: &EndingsJob<'a>) -> Question<'a>
    ensures { result ≡ question_of search.now }
{
    Question {
        depth: search.depth,
        states: search.states,
        memory: search.memory,
        stuck: search.stuck,
        rests: search.rests,
        with_line: search.with_line,
        never: search.never,
        wanted: wanted_of(search.wanted),
    }
}

/// How a chart is written.
pub(crate) fn text_form(chart: TextChart) -> TextForm
    ensures { result ≡ text_form chart }
{
    TextForm {
        is_ascii: !chart.shows_lines,
        width: text_width(chart.width),
        has_registers: chart.registers,
    }
}

/// The lines of a text, where a chart is asked for.
///
/// `NoMemory`: memory was refused.
pub(crate) fn listing_for<'t>(
    alloc: Global,
    text: &'t [u8],
    chart: Option<TextChart>,
) -> Result<Option<Listing<'t>>, NoMemory>
    ensures { IfOk result (λ listing. listing ≡ option_map (λ c. listing_of text.now) chart) }
{
    match chart {
        Some(_) => Ok(Some(Listing::of(alloc, text)?)),
        None => Ok(None),
    }
}

// The chart of each ending, where one is asked for.
fn asked_chart<'e, 't>(
    chart: Option<TextChart>,
    listing: &'e Option<Listing<'t>>,
) -> Option<AskedChart<'e, 't>>
    ensures { (text : List ℕ) → listing.now ≡ option_map (λ c. listing_of text) chart →
        option_map chart_as result ≡ option_map (asked_chart text) chart }
{
    match (chart, listing) {
        (Some(chart), Some(listing)) => Some(AskedChart {
            form: text_form(chart),
            listing,
        }),
        _ => None,
    }
}

// The answer of all histories, or of the runs that processors make.
fn answer_by<P: Progress>(
    alloc: Global,
    machine: &Machine,
    scheduler: Scheduler,
    question: &Question<'_>,
    beside: Beside<'_, '_>,
    progress: &mut P,
) -> Result<Answer, QuestionFault>
    ensures ok { IfOk result (λ answer. IsAnswerBy scheduler machine.now question.now
        (shown_as beside.entry.shown) (option_copied beside.entry.expected) answer.lines.items
        answer.unmet.items answer.status) }
    ensures err { IfErr result (λ fault. (fault ≡ NoMemoryFor) ⊎
        (question_fault question.now ≡ Some fault)) }
{
    match scheduler {
        Scheduler::Any => answer(alloc, machine, question, beside, progress),
        Scheduler::Placed => placed_answer(alloc, machine, question, beside, progress),
    }
}

/// What an answer comes to.
pub(crate) fn answer_out<'a>(answer: Answer) -> Done<'a>
    ensures { output_of result ≡ record {
      lines = answer.lines.items;
      list = None;
      said = answer.unmet.items;
      status = answer.status;
    } }
{
    Done {
        lines: answer.lines,
        list: None,
        said: answer.unmet,
        status: answer.status,
    }
}

/// What is printed of each ending beside its report, and what is expected of it.
pub(crate) fn beside_of<'e, 't>(
    search: &EndingsJob<'_>,
    listing: &'e Option<Listing<'t>>,
    expected: Option<&'e Expectations<'t>>,
) -> Beside<'e, 't>
    ensures shown { (text : List ℕ) →
        listing.now ≡ option_map (λ c. listing_of text) search.now.chart →
        shown_as result.shown ≡ shown_of text search.now }
    ensures expected { option_copied result.expected ≡ option_copied expected.entry }
{
    Beside {
        shown: Shown {
            chart: asked_chart(search.chart, listing),
            waits: search.waits,
        },
        expected,
    }
}

// What a search comes to that prints the endings that are asked for.
fn answer_done<'a, P: Progress>(
    alloc: Global,
    text: &[u8],
    machine: &Machine,
    search: &EndingsJob<'_>,
    expected: Option<&Expectations<'_>>,
    progress: &mut P,
) -> Result<Done<'a>, Fault<'a>>
    ensures ok { IfOk result (λ done.
        IsAnswerDone search.now text.now machine.now (option_copied expected.entry)
        (output_of done)) }
    ensures err { IfErr result (λ fault. (fault ≡ OutOfMemory) ⊎
        (fault_of_limits search.now ≡ Some fault)) }
{
    let question = question_of(search);
    let listing = listing_for(alloc, text, search.chart)?;
    let beside = beside_of(search, &listing, expected);
    let answer = answer_by(
        alloc,
        machine,
        search.scheduler,
        &question,
        beside,
        progress,
    )?;
    Ok(answer_out(answer))
}

// The trace that is printed in place of all else, or else that nothing has this number.
fn trace_out<'a>(alloc: Global, trace: Option<Vec<u8>>) -> Result<Done<'a>, NoMemory>
    ensures out { IfOk result (λ done.
        IsTraceOut (option_map (λ t. t.items) trace) (output_of done)) }
    ensures unrecorded { IfOk result (λ done. (output_of done).list ≡ None) }
{
    match trace {
        Some(lines) => Ok(Done {
            lines,
            list: None,
            said: Vec::new(alloc),
            status: 0,
        }),
        None => Ok(Done {
            lines: Vec::new(alloc),
            list: None,
            said: line_of(alloc, &Fault::Ending)?,
            status: 1,
        }),
    }
}

// What a search comes to that prints the trace of one ending.
fn trace_done<'a, P: Progress>(
    alloc: Global,
    machine: &Machine,
    search: &EndingsJob<'_>,
    number: u64,
    progress: &mut P,
) -> Result<Done<'a>, Fault<'a>>
    ensures ok { IfOk result (λ done.
        IsTraceDone search.now machine.now number (output_of done)) }
    ensures err { IfErr result (λ fault. (fault ≡ OutOfMemory) ⊎
        (fault_of_limits search.now ≡ Some fault)) }
{
    let question = question_of(search);
    let trace = asked_trace(alloc, machine, &question, number, progress)?;
    Ok(trace_out(alloc, trace)?)
}

/// Judges the list of the threads that may rest.
pub(crate) fn judge_rests<'a>(
    alloc: Global,
    machine: &Machine,
    search: &EndingsJob<'_>,
) -> Result<(), Fault<'a>>
    ensures ok { IfOk result (λ _. fault_of_rests machine.now search.now ≡ None) }
    ensures err { IfErr result (λ fault. (fault ≡ OutOfMemory) ⊎
        (fault_of_rests machine.now search.now ≡ Some fault)) }
{
    match listed_threads(alloc, machine, search.rests) {
        Ok(_) => Ok(()),
        Err(fault) => Err(fault),
    }
}

// What a search for endings comes to, or that prints the trace of one.
fn endings_done<'a, P: Progress>(
    alloc: Global,
    text: &[u8],
    machine: &Machine,
    search: &EndingsJob<'_>,
    expected: Option<&Expectations<'_>>,
    progress: &mut P,
) -> Result<Done<'a>, Fault<'a>>
    ensures ok { IfOk result (λ done.
        IsEndingsDone search.now text.now machine.now (option_copied expected.entry)
        (output_of done)) }
    ensures err { IfErr result (λ fault. (fault ≡ OutOfMemory) ⊎
        (fault_of_endings machine.now search.now ≡ Some fault)) }
{
    judge_rests(alloc, machine, search)?;
    match search.trace {
        None => answer_done(alloc, text, machine, search, expected, progress),
        Some(number) => trace_done(alloc, machine, search, number, progress),
    }
}

// The condition of a text.
fn condition_of<'a, 't>(alloc: Global, text: &'t str) -> Result<Condition<'t>, Fault<'a>>
    ensures ok { IfOk result (λ condition. condition_of text.now ≡ Ok condition) }
    ensures err { IfErr result (λ fault. (fault ≡ OutOfMemory) ⊎
        ((other : Option ModelFault) → fault_before (condition_of text.now) other ≡ Some fault)) }
{
    match Condition::parse(alloc, text.as_bytes()) {
        Ok(condition) => Ok(condition),
        Err(ExpectFault::Line(line, wrong)) => Err(Fault::Condition(line, wrong)),
        Err(ExpectFault::NoMemory) => Err(Fault::NoMemory),
    }
}

// What a search comes to that asks whether a world on the way meets a condition.
fn verdict_done<'a, P: Progress>(
    alloc: Global,
    machine: &Machine,
    search: &EndingsJob<'_>,
    condition: &Condition<'_>,
    progress: &mut P,
) -> Result<Done<'a>, Fault<'a>>
    ensures ok { IfOk result (λ done. IsVerdictOut search.now.trace machine.now
        (question_of search.now) condition.now (output_of done)) }
    ensures unrecorded { IfOk result (λ done. (output_of done).list ≡ None) }
    ensures err { IfErr result (λ fault. (fault ≡ OutOfMemory) ⊎
        (fault_of_limits search.now ≡ Some fault)) }
{
    let question = question_of(search);
    if let Some(number) = search.trace {
        let trace = always_trace(alloc, machine, &question, condition, number, progress)?;
        return Ok(trace_out(alloc, trace)?);
    }
    let answer = always_answer(alloc, machine, &question, condition, progress)?;
    Ok(answer_out(answer))
}

// The same, by the text of the condition, which is judged first.
fn condition_done<'a, P: Progress>(
    alloc: Global,
    machine: &Machine,
    search: &EndingsJob<'_>,
    text: &str,
    progress: &mut P,
) -> Result<Done<'a>, Fault<'a>>
    ensures ok { IfOk result (λ done.
        IsVerdictDone search.now text.now machine.now (output_of done)) }
    ensures err { IfErr result (λ fault. (fault ≡ OutOfMemory) ⊎
        (fault_before (condition_of text.now) (fault_of_limits search.now) ≡ Some fault)) }
{
    match condition_of(alloc, text) {
        Ok(condition) => verdict_done(alloc, machine, search, &condition, progress),
        Err(fault) => Err(fault),
    }
}

/// What a search for the endings of the machine that `text` declares comes to. The listener hears how
/// far it has come.
pub(crate) fn search_done<'a, P: Progress>(
    alloc: Global,
    text: &[u8],
    machine: &Machine,
    search: &EndingsJob<'_>,
    expected: Option<&Expectations<'_>>,
    progress: &mut P,
) -> Result<Done<'a>, Fault<'a>>
    ensures ok { IfOk result (λ done.
        IsSearchDone search.now text.now machine.now (option_copied expected.entry)
        (output_of done)) }
    ensures err { IfErr result (λ fault. (fault ≡ OutOfMemory) ⊎
        (fault_of_search machine.now search.now ≡ Some fault)) }
{
    match search.always {
        Some(condition) => condition_done(alloc, machine, search, condition, progress),
        None => endings_done(alloc, text, machine, search, expected, progress),
    }
}
