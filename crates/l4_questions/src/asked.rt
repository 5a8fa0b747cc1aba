//! Which endings a question asks for.
ghost use Rattle.std.specs.Prelude.{◌≡◌};
ghost use Rattle.std.specs.List.{list_any};
ghost use Rattle.std.specs.Option.{option_copied};
ghost use Rattle.l4_questions.specs.Asked.{has_asked, is_asked, lacks_asked};
ghost use Rattle.l4_questions.specs.Resting.{counts};

use crate::found::FoundEnding;
use crate::question::Question;
use crate::resting::counts;
use l4_lines::lines::has_line;
use l4_types::ids::GlobalId;

/// Whether a question asks for this ending.
pub(crate) fn is_asked(question: &Question<'_>, found: &FoundEnding<'_>) -> bool
    ensures { result ≡ is_asked question.now found.now }
{
    if question.stuck && !is_any_counted(question, found.stuck()) {
        return false;
    }
    let report = found.report();
    has_asked(question.with_line, report) && lacks_asked(question.never, report)
}

// Whether the question counts one of these threads as stuck.
fn is_any_counted(question: &Question<'_>, stuck: &[GlobalId]) -> bool
    ensures { result ≡ list_any (counts question.now) stuck.now }
{
    stuck.iter().any(|id| counts(question, *id))
}

// Whether a report has the line that is asked for, if one is.
fn has_asked(line: Option<&str>, report: &[u8]) -> bool
    ensures { result ≡ has_asked (option_copied line.entry) report.now }
{
    match line {
        None => true,
        Some(line) => has_line(line, report),
    }
}

// Whether a report lacks the line that it must not have, if there is one.
fn lacks_asked(line: Option<&str>, report: &[u8]) -> bool
    ensures { result ≡ lacks_asked (option_copied line.entry) report.now }
{
    match line {
        None => true,
        Some(line) => !has_line(line, report),
    }
}
