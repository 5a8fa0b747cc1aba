//! The answer to a question about all histories.
ghost use Rattle.std.specs.Prelude.{◌≡◌, ◌⊎◌, ◌++◌, ◌∷◌, ◌<◌, [], min, false, true, IfErr, IfOk, List};
ghost use Rattle.std.specs.Prelude.{None, Option, Some};
ghost use Rattle.std.specs.Option.{option_copied};
ghost use Rattle.l4_expect.specs.Expected.{Expected};
ghost use Rattle.l4_explore.specs.Tries.{deepest};
ghost use Rattle.l4_model.specs.Steps.{Step};
ghost use Rattle.l4_questions.specs.Answers.{endings_after, whole_word, AreFound};
ghost use Rattle.l4_questions.specs.Answers.{IsAnswer};
ghost use Rattle.l4_questions.specs.Asked.{is_asked};
ghost use Rattle.l4_questions.specs.Beside.{Shown, shown_as};
ghost use Rattle.l4_questions.specs.Inner.Counted.{has_any, last_lines_if, IsCounted};
ghost use Rattle.l4_questions.specs.Limits.{most_looked, question_fault};
ghost use Rattle.l4_questions.specs.Printed.{endings_text, IsTold};
ghost use Rattle.l4_questions.specs.Stuck.{stuck_lines, AreAllStuck};
ghost use Rattle.l4_questions.specs.Told.{BreaksOff, HasBegun, IsToldFirst};
ghost use Rattle.l4_questions.specs.Inner.AllTold.{AreAllTold};
ghost use Rattle.l4_questions.specs.Walked.{IsAnyAnswer, walk_line};
ghost use Rattle.l4_questions.specs.declared.question.QuestionFault.TheVariants.{NoMemory as OutOfMemory};
ghost use Rattle.l4_stuck.specs.Stuck.{stuck_of};

use crate::beside::Beside;
use crate::judged::{Answer, Told, fault_without, with_told};
use crate::listed::Listed;
use crate::question::{Question, QuestionFault};
use crate::stuck::{asked_stuck, stuck_lines, stuck_status};
use crate::teller::{TellFault, Teller};
use crate::telling::{Asking, Histories, Telling};
use crate::walked::walked_ending;
use l4_all_endings::{Looked, all_endings_telling};
use l4_explore::progress::Progress;
use l4_script::machine::Machine;
use l4_stuck::FoundThreads;
use l4_types::errors::NoMemory;
use std::alloc::Global;

/// What stands behind the ending that a walk came to.
pub(crate) fn walk_line() -> &'static [u8]
    ensures { result.now ≡ walk_line }
{
    b"found by a walk, perhaps not the shortest; no others were looked for\n"
}

/// Whether there are no more.
pub(crate) fn whole_word(is_whole: bool) -> &'static str
    ensures { result.now ≡ whole_word is_whole }
{
    if is_whole { "whole" } else { "cut" }
}

// What a search says of itself: where there is no ending at all, and how far it went.
fn last_lines(alloc: Global, looked: &Looked, is_any: bool) -> Result<Vec<u8>, NoMemory>
    ensures { IfOk result (λ lines. lines.items ≡
        last_lines_if is_any looked.now.worlds looked.now.depth looked.now.is_whole) }
{
    let mut lines = String::new(alloc);
    if looked.is_whole && !is_any {
        lines.push_str("no ending: it goes on for ever\n")?;
    }
    let end = whole_word(looked.is_whole);
    writeln!(
        lines,
        "worlds {} steps {} {end}",
        looked.worlds, looked.depth
    )?;
    Ok(lines.into_bytes())
}

// What stands behind the endings: the threads that are stuck for ever, and what the search says of
// itself.
fn lines_behind(
    alloc: Global,
    machine: &Machine,
    looked: &Looked,
    is_any: bool,
    stuck: &FoundThreads,
) -> Result<Vec<u8>, NoMemory>
    requires { AreAllStuck machine.now stuck.now.threads.items }
    ensures { IfOk result (λ lines. lines.items ≡
        stuck_lines machine.now (stuck_of stuck.now.threads.items) stuck.now.is_whole
        ++ last_lines_if is_any looked.now.worlds looked.now.depth looked.now.is_whole) }
{
    let mut lines = stuck_lines(alloc, machine, stuck)?;
    let last = last_lines(alloc, looked, is_any)?;
    lines.extend_from_slice(&last)?;
    Ok(lines)
}

// What is left of the answer behind the endings.
fn answer_behind<P: Progress>(
    alloc: Global,
    machine: &Machine,
    question: &Question<'_>,
    depth: u32,
    most: u32,
    progress: &mut P,
    looked: &Looked,
    told: Told,
) -> Result<Answer, NoMemory>
    requires lawful { question_fault question.now ≡ None }
    requires depth { min depth deepest ≡ question.now.depth }
    requires most { most ≡ most_looked machine.now question.now }
    requires some { 0 < most }
    ensures { IfOk result (λ answer. (shown : Shown) (expected : Option (List Expected))
        (traces : List (List Step)) → told.is_any ≡ has_any traces →
        IsCounted question.now expected (endings_after machine.now traces) told →
        AreFound machine.now question.now traces looked.now.worlds looked.now.depth
        looked.now.is_whole →
        IsAnswer machine.now question.now shown expected
        (endings_text shown question.now (endings_after machine.now traces) ++ answer.lines.items)
        answer.unmet.items answer.status) }
{
    let stuck = asked_stuck(alloc, machine, question, depth, most, progress)?;
    let lines = lines_behind(alloc, machine, looked, told.is_any, &stuck)?;
    let answer = told.into_answer(question, lines, looked.is_whole);
    Ok(Answer {
        status: stuck_status(question.wanted, &stuck, answer.status),
        ..answer
    })
}

// Searches for all endings, and tells each that is asked for.
fn told_endings<P: Progress, T: Teller>(
    alloc: Global,
    machine: &Machine,
    question: &Question<'_>,
    beside: Beside<'_, '_>,
    depth: u32,
    most: u32,
    progress: &mut P,
    teller: &mut T,
) -> Result<(Looked, Told), TellFault>
    requires lawful { question_fault question.now ≡ None }
    requires depth { min depth deepest ≡ question.now.depth }
    requires most { most ≡ most_looked machine.now question.now }
    requires some { 0 < most }
    ensures ok { IfOk result (λ told. AreAllTold (T.takes teller.old teller.new) machine.now
        question.now (shown_as beside.entry.shown) (option_copied beside.entry.expected) told.0
        told.1) }
    ensures err { IfErr result (λ fault. BreaksOff (T.takes teller.old teller.new) question.now
        (HasBegun (T.takes teller.old teller.new) machine.now question.now
        (shown_as beside.entry.shown)) fault) }
{
    let mut told = Told::new(alloc);
    let asking = Asking {
        machine,
        question,
        beside,
    };
    let mut telling = Telling {
        searched: Histories,
        asking: &asking,
        told: &mut told,
        teller,
    };
    match all_endings_telling(alloc, machine, depth, most, progress, &mut telling) {
        Ok(Some(looked)) => Ok((looked, told)),
        Ok(None) => Err(told.fault()),
        Err(_) => Err(told.fault()),
    }
}

// The answer by a search for all endings.
fn searched_answer<P: Progress, T: Teller>(
    alloc: Global,
    machine: &Machine,
    question: &Question<'_>,
    beside: Beside<'_, '_>,
    depth: u32,
    most: u32,
    progress: &mut P,
    teller: &mut T,
) -> Result<Answer, TellFault>
    requires lawful { question_fault question.now ≡ None }
    requires depth { min depth deepest ≡ question.now.depth }
    requires most { most ≡ most_looked machine.now question.now }
    requires some { 0 < most }
    ensures ok { IfOk result (λ answer. IsToldFirst (T.takes teller.old teller.new) (λ lines.
        IsAnswer machine.now question.now (shown_as beside.entry.shown)
        (option_copied beside.entry.expected) lines answer.unmet.items answer.status)
        answer.lines.items) }
    ensures err { IfErr result (λ fault. BreaksOff (T.takes teller.old teller.new) question.now
        (HasBegun (T.takes teller.old teller.new) machine.now question.now
        (shown_as beside.entry.shown)) fault) }
{
    let (looked, told) = told_endings(
        alloc, machine, question, beside, depth, most, progress, teller,
    )?;
    let answer = answer_behind(
        alloc, machine, question, depth, most, progress, &looked, told,
    )?;
    Ok(answer)
}

/// The answer by a walk to an ending.
///
/// `NoMemory`: memory was refused.
pub(crate) fn walk_answer<L: Listed>(
    alloc: Global,
    machine: &Machine,
    question: &Question<'_>,
    beside: Beside<'_, '_>,
    entries: &L,
) -> Result<Answer, NoMemory>
    requires leads { L.leads machine.now entries.now }
    requires asked { is_asked question.now (L.ending machine.now entries.now) ≡ true }
    ensures { IfOk result (λ answer. IsTold question.now (shown_as beside.entry.shown)
        (option_copied beside.entry.expected) (L.ending machine.now entries.now ∷ []) walk_line false
        answer.lines.items answer.unmet.items answer.status) }
{
    let found = entries.ending(alloc, machine)?;
    let mut told = Told::new(alloc);
    let mut lines = Vec::new(alloc);
    told.write(alloc, beside, found, &mut lines)?;
    let mut line = Vec::new(alloc);
    line.extend_from_slice(walk_line())?;
    let answer = with_told(lines, told.into_answer(question, line, false))?;
    Ok(answer)
}

/// The answer to a question: the endings that it asks for, numbered from 1, shorter histories first.
/// They are among the endings of all histories of at most `depth` steps but ticks, each once, with a
/// shortest history. `teller` is told the lines of each as soon as it is found, and they are not
/// kept. What the answer has beside them is returned: its lines stand behind those. `progress` hears
/// how far the search has come.
///
/// Where no such ending should exist and there are many worlds, walks at random are tried before the
/// search. If one comes to such an ending, the answer is that ending, perhaps not by a shortest
/// history, and it says so last. Nothing is told then: the answer has all lines.
///
/// `NoAnswer`: as of `answer`. Where memory was refused on the way, the first endings have been told.
/// `NotTold`: the teller took not all of one.
pub fn told_answer<P: Progress, T: Teller>(
    alloc: Global,
    machine: &Machine,
    question: &Question<'_>,
    beside: Beside<'_, '_>,
    progress: &mut P,
    teller: &mut T,
) -> Result<Answer, TellFault>
    ensures ok { IfOk result (λ answer. IsToldFirst (T.takes teller.old teller.new) (λ lines.
        IsAnyAnswer machine.now question.now (shown_as beside.entry.shown)
        (option_copied beside.entry.expected) lines answer.unmet.items answer.status)
        answer.lines.items) }
    ensures err { IfErr result (λ fault. BreaksOff (T.takes teller.old teller.new) question.now
        (HasBegun (T.takes teller.old teller.new) machine.now question.now
        (shown_as beside.entry.shown)) fault) }
{
    let (depth, most) = question.limits(machine)?;
    match walked_ending(alloc, machine, question, depth, most, progress)? {
        Some(entries) => Ok(walk_answer(alloc, machine, question, beside, &entries)?),
        None => searched_answer(
            alloc, machine, question, beside, depth, most, progress, teller,
        ),
    }
}

/// The answer of `told_answer`, with all of its lines.
///
/// `Depth`: the depth is 0 or above 1,000,000. `States`: the number of worlds is 0 or above
/// 100,000,000. `Memory`: the memory is 0 or above 1,048,576 MiB. `NoMemory`: memory was refused.
pub fn answer<P: Progress>(
    alloc: Global,
    machine: &Machine,
    question: &Question<'_>,
    beside: Beside<'_, '_>,
    progress: &mut P,
) -> Result<Answer, QuestionFault>
    ensures ok { IfOk result (λ answer. IsAnyAnswer machine.now question.now
        (shown_as beside.entry.shown) (option_copied beside.entry.expected) answer.lines.items
        answer.unmet.items answer.status) }
    ensures err { IfErr result (λ fault. (fault ≡ OutOfMemory) ⊎
        (question_fault question.now ≡ Some fault)) }
{
    let mut told = Vec::new(alloc);
    match told_answer(alloc, machine, question, beside, progress, &mut told) {
        Ok(answer) => Ok(with_told(told, answer)?),
        Err(fault) => Err(fault_without(fault)),
    }
}
