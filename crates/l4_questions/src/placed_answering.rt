//! The answer to a question about the runs that processors make by schedules.
ghost use Rattle.std.specs.Prelude.{◌≡◌, ◌⊎◌, ◌<◌, min, IfErr, IfOk, None, Some};
ghost use Rattle.std.specs.Option.{option_copied};
ghost use Rattle.l4_explore.specs.Tries.{deepest};
ghost use Rattle.l4_questions.specs.Beside.{shown_as};
ghost use Rattle.l4_questions.specs.Limits.{most_looked, question_fault};
ghost use Rattle.l4_questions.specs.Placed.{IsPlacedAnswer};
ghost use Rattle.l4_questions.specs.PlacedWalked.{IsAnyPlacedAnswer};
ghost use Rattle.l4_questions.specs.Told.{BreaksOff, IsToldFirst, PlacedHasBegun};
ghost use Rattle.l4_questions.specs.Inner.AllTold.{AreAllPlacedTold};
ghost use Rattle.l4_questions.specs.declared.question.QuestionFault.TheVariants.{NoMemory as OutOfMemory};

use crate::answering::walk_answer;
use crate::beside::Beside;
use crate::judged::{Answer, Told, fault_without, with_told};
use crate::placed_walked::placed_walked_ending;
use crate::printed::states_line;
use crate::question::{Question, QuestionFault};
use crate::teller::{TellFault, Teller};
use crate::telling::{Asking, PlacedRuns, Telling};
use l4_endings::{Looked, endings_telling};
use l4_explore::progress::Progress;
use l4_script::machine::Machine;
use std::alloc::Global;

// Searches for all endings, and tells each that is asked for.
fn told_endings<P: Progress, T: Teller>(
    alloc: Global,
    machine: &Machine,
    question: &Question<'_>,
    beside: Beside<'_, '_>,
    depth: u32,
    most: u32,
    progress: &mut P,
    teller: &mut T,
) -> Result<(Looked, Told), TellFault>
    requires lawful { question_fault question.now ≡ None }
    requires depth { min depth deepest ≡ question.now.depth }
    requires same_depth { depth ≡ question.now.depth }
    requires most { most ≡ most_looked machine.now question.now }
    requires some { 0 < most }
    ensures ok { IfOk result (λ told. AreAllPlacedTold (T.takes teller.old teller.new) machine.now
        question.now (shown_as beside.entry.shown) (option_copied beside.entry.expected) told.0
        told.1) }
    ensures err { IfErr result (λ fault. BreaksOff (T.takes teller.old teller.new) question.now
        (PlacedHasBegun (T.takes teller.old teller.new) machine.now question.now
        (shown_as beside.entry.shown)) fault) }
{
    let mut told = Told::new(alloc);
    let asking = Asking {
        machine,
        question,
        beside,
    };
    let mut telling = Telling {
        searched: PlacedRuns,
        asking: &asking,
        told: &mut told,
        teller,
    };
    match endings_telling(alloc, machine, depth, most, progress, &mut telling) {
        Ok(Some(looked)) => Ok((looked, told)),
        Ok(None) => Err(told.fault()),
        Err(_) => Err(told.fault()),
    }
}

// The answer by a search for all endings.
fn searched_answer<P: Progress, T: Teller>(
    alloc: Global,
    machine: &Machine,
    question: &Question<'_>,
    beside: Beside<'_, '_>,
    depth: u32,
    most: u32,
    progress: &mut P,
    teller: &mut T,
) -> Result<Answer, TellFault>
    requires lawful { question_fault question.now ≡ None }
    requires depth { min depth deepest ≡ question.now.depth }
    requires same_depth { depth ≡ question.now.depth }
    requires most { most ≡ most_looked machine.now question.now }
    requires some { 0 < most }
    ensures ok { IfOk result (λ answer. IsToldFirst (T.takes teller.old teller.new) (λ lines.
        IsPlacedAnswer machine.now question.now (shown_as beside.entry.shown)
        (option_copied beside.entry.expected) lines answer.unmet.items answer.status)
        answer.lines.items) }
    ensures err { IfErr result (λ fault. BreaksOff (T.takes teller.old teller.new) question.now
        (PlacedHasBegun (T.takes teller.old teller.new) machine.now question.now
        (shown_as beside.entry.shown)) fault) }
{
    let (looked, told) = told_endings(
        alloc, machine, question, beside, depth, most, progress, teller,
    )?;
    let last = states_line(alloc, machine, looked.states, looked.depth, looked.is_whole)?;
    Ok(told.into_answer(question, last, looked.is_whole))
}

/// The answer to a question: the endings that it asks for, numbered from 1, shorter schedules
/// first. They are among the endings of all core runs of at most `depth` events, each once, with a
/// shortest schedule. `teller` is told the lines of each as soon as it is found, and they are not
/// kept. What the answer has beside them is returned: its lines stand behind those. `progress` hears
/// how far the search has come.
///
/// Where no such ending should exist and there are many states, walks at random are tried before the
/// search. If one comes to such an ending, the answer is that ending, perhaps not by a shortest
/// schedule, and it says so last. Nothing is told then: the answer has all lines.
///
/// `NoAnswer`: as of `placed_answer`. Where memory was refused on the way, the first endings have
/// been told. `NotTold`: the teller took not all of one.
pub fn told_placed_answer<P: Progress, T: Teller>(
    alloc: Global,
    machine: &Machine,
    question: &Question<'_>,
    beside: Beside<'_, '_>,
    progress: &mut P,
    teller: &mut T,
) -> Result<Answer, TellFault>
    ensures ok { IfOk result (λ answer. IsToldFirst (T.takes teller.old teller.new) (λ lines.
        IsAnyPlacedAnswer machine.now question.now (shown_as beside.entry.shown)
        (option_copied beside.entry.expected) lines answer.unmet.items answer.status)
        answer.lines.items) }
    ensures err { IfErr result (λ fault. BreaksOff (T.takes teller.old teller.new) question.now
        (PlacedHasBegun (T.takes teller.old teller.new) machine.now question.now
        (shown_as beside.entry.shown)) fault) }
{
    let (depth, most) = question.limits(machine)?;
    match placed_walked_ending(alloc, machine, question, depth, most, progress)? {
        Some(entries) => Ok(walk_answer(alloc, machine, question, beside, &entries)?),
        None => searched_answer(
            alloc, machine, question, beside, depth, most, progress, teller,
        ),
    }
}

/// The answer of `told_placed_answer`, with all of its lines.
///
/// `Depth`: the depth is 0 or above 1,000,000. `States`: the number of states is 0 or above
/// 100,000,000. `Memory`: the memory is 0 or above 1,048,576 MiB. `NoMemory`: memory was refused.
pub fn placed_answer<P: Progress>(
    alloc: Global,
    machine: &Machine,
    question: &Question<'_>,
    beside: Beside<'_, '_>,
    progress: &mut P,
) -> Result<Answer, QuestionFault>
    ensures ok { IfOk result (λ answer. IsAnyPlacedAnswer machine.now question.now
        (shown_as beside.entry.shown) (option_copied beside.entry.expected) answer.lines.items
        answer.unmet.items answer.status) }
    ensures err { IfErr result (λ fault. (fault ≡ OutOfMemory) ⊎
        (question_fault question.now ≡ Some fault)) }
{
    let mut told = Vec::new(alloc);
    match told_placed_answer(alloc, machine, question, beside, progress, &mut told) {
        Ok(answer) => Ok(with_told(told, answer)?),
        Err(fault) => Err(fault_without(fault)),
    }
}
