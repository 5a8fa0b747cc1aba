//! The answer to a question, ending by ending.
ghost use Rattle.std.specs.Prelude.{◌≡◌, ◌++◌, ◌+◌, [], Bool, List, Option, IfOk, OnOk, false};
ghost use Rattle.std.specs.Prelude.{length};
ghost use Rattle.std.specs.Option.{option_copied};
ghost use Rattle.l4_expect.specs.Expected.{Expected};
ghost use Rattle.l4_questions.specs.Beside.{Shown, shown_as};
ghost use Rattle.l4_questions.specs.Endings.{Ending};
ghost use Rattle.l4_questions.specs.Printed.{ending_text, endings_text, status_of_asked};
ghost use Rattle.l4_questions.specs.Printed.{status_of_search, unmet_of, IsTold};
ghost use Rattle.l4_questions.specs.Inner.Counted.{IsCounted};
ghost use Rattle.l4_questions.specs.Inner.Faults.{fault_of, fault_without};

use crate::beside::{Beside, status_beside, write_unmet};
use crate::found::FoundEnding;
use crate::question::{Question, QuestionFault, Wanted};
use crate::teller::TellFault;
use l4_types::errors::NoMemory;
use std::alloc::Global;

/// The answer to a question.
#[derive(Debug, Drop)]
pub struct Answer {
    /// The endings that are asked for, each with its report and what is asked for behind it, and
    /// last what the search says of itself.
    pub lines: Vec<u8>,
    /// For each ending that does not meet what is expected: its first line, and a line for each
    /// expectation that does not hold. Empty where all are met.
    pub unmet: Vec<u8>,
    /// The exit status: 4 where an ending does not meet what is expected, or where there are not as
    /// many as should exist. Else 0 where the search is whole or an ending was found that should
    /// exist, and 3 where the search was cut.
    pub status: u8,
}

/// What is known of the endings that were told so far.
#[derive(Drop)]
pub(crate) struct Told {
    // What of them is not met.
    pub(crate) unmet: Vec<u8>,
    // How many of them are asked for.
    pub(crate) count: usize,
    // Whether there is any, asked for or not.
    pub(crate) is_any: bool,
    // Whether not all lines were taken.
    pub(crate) is_refused: bool,
}

impl Told {
    /// Before the first ending.
    pub(crate) fn new(alloc: Global) -> Told
        ensures unmet { result.unmet.items ≡ [] }
        ensures count { result.count ≡ 0 }
        ensures any { result.is_any ≡ false }
        ensures whole { result.is_refused ≡ false }
    {
        Told {
            unmet: Vec::new(alloc),
            count: 0,
            is_any: false,
            is_refused: false,
        }
    }

    /// Appends an ending that is asked for to `lines`, with its number.
    ///
    /// `NoMemory`: memory was refused, or there are more endings than a number counts.
    pub(crate) fn write(
        &mut self,
        alloc: Global,
        beside: Beside<'_, '_>,
        found: FoundEnding<'_>,
        lines: &mut Vec<u8>,
    ) -> Result<(), NoMemory>
        ensures lines { OnOk result (lines.new.items ≡ lines.old.items ++
            ending_text (shown_as beside.entry.shown) (self.old.count + 1) found.entry) }
        ensures unmet { OnOk result (self.new.unmet.items ≡ self.old.unmet.items ++
            unmet_of (option_copied beside.entry.expected) (self.old.count + 1) found.entry) }
        ensures count { OnOk result (self.new.count ≡ self.old.count + 1) }
        ensures any { self.new.is_any ≡ self.old.is_any }
        ensures whole { self.new.is_refused ≡ self.old.is_refused }
    {
        let Some(number) = self.count.checked_add(1) else {
            return Err(NoMemory);
        };
        found.write_head(number, lines)?;
        let chart = found.chart(alloc, beside.shown.chart)?;
        lines.extend_from_slice(&chart)?;
        lines.extend_from_slice(found.report())?;
        write_unmet(beside.expected, number, &found, &mut self.unmet)?;
        self.count = number;
        if !beside.shown.waits {
            return Ok(());
        }
        found.write_waits(alloc, lines)
    }

    /// Why telling came to its end.
    pub(crate) fn fault(&self) -> TellFault
        ensures { result ≡ fault_of self.now.is_refused }
    {
        if self.is_refused {
            TellFault::NotTold
        } else {
            TellFault::NoAnswer(QuestionFault::NoMemory)
        }
    }

    /// The answer behind the endings: these lines are left.
    pub(crate) fn into_answer(
        self,
        question: &Question<'_>,
        lines: Vec<u8>,
        is_whole: bool,
    ) -> Answer
        ensures { (shown : Shown) (expected : Option (List Expected)) (endings : List Ending) →
            IsCounted question.now expected endings self →
            IsTold question.now shown expected endings lines.items is_whole
            (endings_text shown question.now endings ++ result.lines.items) result.unmet.items
            result.status }
    {
        let status = status_of(question.wanted, self.count, is_whole);
        Answer {
            status: status_beside(self.unmet.as_slice(), status),
            lines,
            unmet: self.unmet,
        }
    }
}

/// An answer, with the lines that were told before its own.
///
/// `NoMemory`: memory was refused.
pub(crate) fn with_told(told: Vec<u8>, answer: Answer) -> Result<Answer, NoMemory>
    ensures lines { IfOk result (λ whole. whole.lines.items ≡ told.items ++ answer.lines.items) }
    ensures unmet { IfOk result (λ whole. whole.unmet.items ≡ answer.unmet.items) }
    ensures status { IfOk result (λ whole. whole.status ≡ answer.status) }
{
    let mut lines = told;
    lines.extend_from_slice(&answer.lines)?;
    Ok(Answer { lines, ..answer })
}

/// The fault of an answer that is told to a vector: it takes not all where memory is refused.
pub(crate) fn fault_without(fault: TellFault) -> QuestionFault
    ensures { result ≡ fault_without fault }
{
    match fault {
        TellFault::NoAnswer(fault) => fault,
        TellFault::NotTold => QuestionFault::NoMemory,
    }
}

/// The exit status where it is not asked how many endings there are.
pub(crate) fn status_of_search(is_whole: bool) -> u8
    ensures { result ≡ status_of_search is_whole }
{
    if is_whole { 0 } else { 3 }
}

// The exit status where all that is expected is met.
fn status_of(wanted: Wanted, count: usize, is_whole: bool) -> u8
    ensures { (asked : List Ending) → count ≡ length asked →
        result ≡ status_of_asked wanted asked is_whole }
{
    match wanted {
        Wanted::NoEnding if count > 0 => 4,
        Wanted::Whatever | Wanted::NoEnding => status_of_search(is_whole),
        Wanted::AnEnding if count > 0 => 0,
        Wanted::AnEnding if is_whole => 4,
        Wanted::AnEnding => 3,
    }
}
