//! Which lines may be expected of a report.
ghost use Rattle.std.specs.Prelude.{◌≡◌};
ghost use Rattle.l4_words.specs.Words.{words_in};
ghost use Rattle.l4_expect.specs.Judging.{has_early_rest, wrong_asked, wrong_by, wrong_in_world};
ghost use Rattle.l4_expect.specs.Judging.{wrong_of_ending, wrong_told};

use crate::columns::{may_be_line, may_be_told};
use l4_lines::lines::{LineFault, fault_of_line, is_rest};
use l4_script::text::words_of;
use l4_words::words::Words;

/// Whose reports have to meet expectations.
#[derive(Clone, Copy, Debug, PartialEq, Eq)]
pub enum Scope {
    /// One run, or one replay.
    OneRun,
    /// All runs that end in one state. They may differ in the registers of a deleted thread and in
    /// numbers of sends, so no line may ask for these.
    Endings,
}

/// What is wrong with a line of a text of expectations.
#[derive(Clone, Copy, Debug, PartialEq, Eq)]
pub enum Wrong {
    /// A byte that is not printable ASCII, a missing line end, an empty word, or a `..` that is not
    /// the last word.
    BadLine,
    /// No line of a report begins so.
    Unknown,
    /// A word that no line of a report has in its place, or too few or too many words.
    BadWord,
    /// It asks for more than the state of a deleted thread, in which runs to one ending may differ.
    Deleted,
    /// It asks for the number of a send, in which runs to one ending may differ too.
    Number,
}

/// What is wrong with a line that is asked for. None where it may be expected.
pub(crate) fn wrong_asked(scope: Scope, asked: &[u8]) -> Option<Wrong>
    ensures { result ≡ wrong_asked scope asked.now }
{
    if has_early_rest(asked) {
        return Some(Wrong::BadLine);
    }
    wrong_by(scope, may_be_line(asked), fault_of_line(asked))
}

/// What is wrong with a line that stands alone, and is asked of the reports of endings. None where
/// endings may be asked for it.
pub fn wrong_of_ending(asked: &[u8]) -> Option<Wrong>
    ensures { result ≡ wrong_of_ending asked.now }
{
    match words_of(asked) {
        Ok(Some(_)) => wrong_asked(Scope::Endings, asked),
        Ok(None) => Some(Wrong::BadLine),
        Err(_) => Some(Wrong::BadLine),
    }
}

/// What is wrong with a line of a condition. None where a world on the way may tell such a line.
pub(crate) fn wrong_told(asked: &[u8]) -> Option<Wrong>
    ensures { result ≡ wrong_told asked.now }
{
    match words_of(asked) {
        Ok(Some(_)) => wrong_in_world(asked),
        Ok(None) => Some(Wrong::BadLine),
        Err(_) => Some(Wrong::BadLine),
    }
}

// What is wrong with a line of words as one of a world.
fn wrong_in_world(asked: &[u8]) -> Option<Wrong>
    ensures { result ≡ wrong_in_world asked.now }
{
    if has_early_rest(asked) {
        return Some(Wrong::BadLine);
    }
    wrong_by(Scope::Endings, may_be_told(asked), fault_of_line(asked))
}

// What is wrong with a line, by its words, and by its fault as a line that may be asked of endings.
fn wrong_by(scope: Scope, may_be_line: bool, fault: Option<LineFault>) -> Option<Wrong>
    ensures { result ≡ wrong_by scope may_be_line fault }
{
    match (fault, may_be_line, scope) {
        (Some(LineFault::Unknown), _, _) => Some(Wrong::Unknown),
        (_, false, _) => Some(Wrong::BadWord),
        (Some(LineFault::Deleted), true, Scope::Endings) => Some(Wrong::Deleted),
        (Some(LineFault::Number), true, Scope::Endings) => Some(Wrong::Number),
        (_, true, _) => None,
    }
}

// Whether `..` stands in front of the last word.
fn has_early_rest(asked: &[u8]) -> bool
    ensures { result ≡ has_early_rest (words_in asked.now) }
{
    let mut words = Words::of(asked);
    let Some(mut word) = words.next() else {
        return false;
    };
    'words: while let Some(next) = words.next() {
        if is_rest(word) {
            return true;
        }
        word = next;
    }
    false
}
