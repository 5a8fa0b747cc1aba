//! The place of the fault of a line with scripts of version 2.
ghost use Rattle.std.specs.Prelude.{◌≡◌, ◌≤◌, ◌<◌, length, IfSome};
ghost use Rattle.std.specs.Option.{option_copied, option_map};
ghost use Rattle.l4_script.specs.Inner.Second.{stage_of};
ghost use Rattle.l4_lint.specs.Lines.{lines_of};
ghost use Rattle.l4_lint.specs.Second.Commands.{operands_of};
ghost use Rattle.l4_lint.specs.Second.Forms.{at_most_one, column_in, context_at, counted_place};
ghost use Rattle.l4_lint.specs.Second.Forms.{among_hint, double_place, elsewhere, form_place};
ghost use Rattle.l4_lint.specs.Second.Forms.{hint_for_name, hint_of, is_heir, is_other_comment};
ghost use Rattle.l4_lint.specs.Second.Forms.{is_wrong_label, keywords_place, kind_place};
ghost use Rattle.l4_lint.specs.Second.Forms.{label_place, last_place};
ghost use Rattle.l4_lint.specs.Second.Forms.{line_at, line_hint, line_place, lines_in, missed_hint};
ghost use Rattle.l4_lint.specs.Second.Forms.{missed_place, name_place, operands_place, passes};
ghost use Rattle.l4_lint.specs.Second.Forms.{reading_in, spaced_place, walk_all, walked_place};
ghost use Rattle.l4_lint.specs.Second.Forms.{words_place, wrong_byte};
ghost use Rattle.l4_lint.specs.Inner.Views.{context_of, parts_view, place_of, walked_of};

use super::commands::{operands_of, target_in};
use super::judging::{is_double, is_right, operand_hint, thread_in};
use super::names::name_hint;
use super::parts::{Parts, parts_of};
use crate::bytes::{bad_byte, byte_hint, clear, split_word};
use crate::contexts::Context;
use crate::hints::{Hint, Lines, Operand};
use crate::judging::is_keyword;
use crate::places::Place;
use crate::walks::{Test, Walked};
use l4_script::text::second::{Reading, Stage, is_name, without_return};
use l4_script::text::{TextFaultKind, has_empty_word};
use l4_types::formats::Format;

fn lines_in(begun: bool) -> Lines
    ensures { result ≡ lines_in begun }
{
    if begun { Lines::Script } else { Lines::Names }
}

/// What this stage says about the next line.
fn context_at(stage: &Stage<'_>, lost: bool) -> Context
    ensures { context_of result ≡ context_at (stage_of stage.now) lost }
{
    match stage {
        Stage::Start => Context {
            lines: Lines::Format,
            format: Format::W64,
            cpus: 0,
        },
        Stage::Processors(heading) => Context {
            lines: Lines::Processors,
            format: heading.format(),
            cpus: 0,
        },
        Stage::Threads(reading) => Context {
            lines: lines_in(lost || !reading.machine().threads().is_empty()),
            format: reading.format(),
            cpus: reading.machine().cpus(),
        },
    }
}

fn reading_in<'r, 'a>(stage: &'r Stage<'a>) -> Option<&'r Reading<'a>>
    ensures { option_copied result ≡ reading_in (stage_of stage.now) }
{
    match stage {
        Stage::Threads(reading) => Some(reading),
        Stage::Start | Stage::Processors(_) => None,
    }
}

fn passes(
    test: Test,
    context: Context,
    reading: Option<&Reading<'_>>,
    words: &[u8],
    operand: Operand,
    word: &[u8],
) -> bool
    ensures { result ≡ passes test (context_of context) (option_copied reading.entry) words.now
        operand word.now }
{
    match test {
        Test::Present => !word.is_empty(),
        Test::Keyword => {
            !is_keyword(operand) || is_right(context, reading, words, operand, word)
        }
        Test::Right => is_right(context, reading, words, operand, word),
    }
}

// Tests the operands one after another, until one does not pass.
fn walk_all<'a>(
    test: Test,
    context: Context,
    reading: Option<&Reading<'_>>,
    operands: &[Operand],
    words: &'a [u8],
) -> Walked<'a>
    ensures { walked_of result ≡
        walk_all test (context_of context) (option_copied reading.entry) operands.now words.now }
{
    let mut rest = words;
    for operand in operands {
        let (word, others) = split_word(rest);
        if !passes(test, context, reading, words, *operand, word) {
            return Walked {
                rest,
                failed: Some(*operand),
            };
        }
        rest = others;
    }
    Walked { rest, failed: None }
}

// Whether the last thread has the script of another.
fn is_heir(reading: Option<&Reading<'_>>) -> bool
    ensures { result ≡ is_heir (option_copied reading.entry) }
{
    match reading {
        Some(reading) => reading.heir_of().is_some(),
        None => false,
    }
}

// What is said of a line that may not stand there.
fn line_hint(context: Context, reading: Option<&Reading<'_>>) -> Hint
    ensures { result ≡ line_hint (context_of context) (option_copied reading.entry) }
{
    if is_heir(reading) {
        Hint::OfHeir
    } else {
        Hint::Begins(context.lines)
    }
}

fn line_at<'a>(context: Context, reading: Option<&Reading<'_>>, parts: Parts<'a>) -> Place<'a>
    ensures { place_of result ≡
        line_at (context_of context) (option_copied reading.entry) (parts_view parts.entry) }
{
    Place::at(parts.front, parts.words, line_hint(context, reading))
}

// The place of the first word that is not the keyword wanted there.
fn keywords_place<'a>(
    context: Context,
    reading: Option<&Reading<'_>>,
    parts: Parts<'a>,
    walked: Walked<'a>,
) -> Place<'a>
    ensures { place_of result ≡ keywords_place (context_of context)
        (option_copied reading.entry) (parts_view parts.entry) (walked_of walked.entry) }
{
    match walked.failed {
        Some(wanted) => Place::at(parts.front, walked.rest, Hint::Wanted(wanted)),
        None => line_at(context, reading, parts),
    }
}

// The place of a missing or surplus word, or else of a wrong keyword.
fn counted_place<'a>(
    context: Context,
    reading: Option<&Reading<'_>>,
    parts: Parts<'a>,
    operands: &[Operand],
    walked: Walked<'a>,
) -> Place<'a>
    ensures { place_of result ≡ counted_place (context_of context) (option_copied reading.entry)
        (parts_view parts.entry) operands.now (walked_of walked.entry) }
{
    if let Some(wanted) = walked.failed {
        return Place::at(parts.front, walked.rest, Hint::Wanted(wanted));
    }
    if !walked.rest.is_empty() {
        return Place::at(parts.front, walked.rest, Hint::Surplus);
    }
    let words = split_word(parts.words).1;
    let keywords = walk_all(Test::Keyword, context, reading, operands, words);
    keywords_place(context, reading, parts, keywords)
}

fn is_other_comment(words: &[u8]) -> bool
    ensures { result ≡ is_other_comment words.now }
{
    words.starts_with(b"#") || words.starts_with(b"//")
}

// The place of the word that breaks the form of its line.
fn words_place<'a>(
    context: Context,
    reading: Option<&Reading<'_>>,
    parts: Parts<'a>,
    operands: Option<&[Operand]>,
) -> Place<'a>
    ensures { place_of result ≡ words_place (context_of context) (option_copied reading.entry)
        (parts_view parts.entry) (option_copied operands.entry) }
{
    match operands {
        Some(operands) => {
            let words = split_word(parts.words).1;
            let walked = walk_all(Test::Present, context, reading, operands, words);
            counted_place(context, reading, parts, operands, walked)
        }
        None if is_other_comment(parts.words) => {
            Place::at(parts.front, parts.words, Hint::OtherComment)
        }
        None => line_at(context, reading, parts),
    }
}

// The column behind so many bytes of the words.
fn column_in(parts: Parts<'_>, before: usize) -> usize
    requires { before ≤ length parts.words.now }
    ensures { result ≡ column_in (parts_view parts.entry) before }
{
    parts.front.len().saturating_sub(parts.words.len()) + before + 1
}

// The place of a tab or a space among the words, or else of the word that breaks the form: of the
// name in front, where there are no words.
fn spaced_place<'a>(
    context: Context,
    reading: Option<&Reading<'_>>,
    parts: Parts<'a>,
    tab: Option<usize>,
) -> Place<'a>
    requires { IfSome tab (λ before. before < length parts.words.now) }
    ensures { place_of result ≡ spaced_place (context_of context) (option_copied reading.entry)
        (parts_view parts.entry) tab }
{
    if let Some(before) = tab {
        return Place::new(column_in(parts, before), b"\t", Hint::Tab);
    }
    if parts.words.is_empty() {
        return Place::at(parts.front, parts.said, line_hint(context, reading));
    }
    if has_empty_word(parts.words) {
        return Place::new(column_in(parts, clear(parts.words)), b"", Hint::Space);
    }
    let operands = operands_of(context.lines, parts.words);
    words_place(context, reading, parts, operands)
}

// The place of the first byte that may not stand in a line.
fn wrong_byte(line: &[u8]) -> Option<usize>
    ensures value { result ≡ wrong_byte line.now }
    ensures within { IfSome result (λ index. index < length line.now) }
{
    without_return(line)
        .iter()
        .position(|byte| !matches!(byte, b'\t' | b' '..=b'~'))
}

// The hint for a byte, where one carriage return may end a line.
fn at_most_one(hint: Hint) -> Hint
    ensures { result ≡ at_most_one hint }
{
    match hint {
        Hint::CarriageReturn => Hint::SurplusReturn,
        _ => hint,
    }
}

// The place of what breaks the form of a line. `wrong` is the place of a byte that may not stand
// there.
fn form_place<'a>(
    context: Context,
    reading: Option<&Reading<'_>>,
    number: usize,
    line: &'a [u8],
    wrong: Option<usize>,
) -> Place<'a>
    requires { IfSome wrong (λ index. index < length line.now) }
    ensures { place_of result ≡
        form_place (context_of context) (option_copied reading.entry) number line.now wrong }
{
    match wrong {
        Some(index) => {
            let hint = at_most_one(byte_hint(number, line, line[index]));
            Place::new(index + 1, &line[index..index + 1], hint)
        }
        None => {
            let parts = parts_of(line);
            spaced_place(context, reading, parts, bad_byte(parts.words))
        }
    }
}

// The hint for a word in the place of a name, where it is looked for.
fn hint_for_name(text: Option<&[u8]>, wanted: Operand, word: &[u8]) -> Hint
    ensures { result ≡
        hint_for_name (option_map lines_of (option_copied text.entry)) wanted word.now }
{
    match text {
        Some(text) => name_hint(text, word),
        None => Hint::Wanted(wanted),
    }
}

// The hint for a wrong operand.
fn hint_of(text: Option<&[u8]>, kind: TextFaultKind, wanted: Operand, word: &[u8]) -> Hint
    ensures { result ≡
        hint_of (option_map lines_of (option_copied text.entry)) kind wanted word.now }
{
    match kind {
        TextFaultKind::BadName => hint_for_name(text, wanted, word),
        _ => operand_hint(kind, wanted, word),
    }
}

// The place of the first wrong operand from the left, by the kind of its fault.
fn walked_place<'a>(
    context: Context,
    reading: Option<&Reading<'_>>,
    text: Option<&[u8]>,
    parts: Parts<'a>,
    kind: TextFaultKind,
    walked: Walked<'a>,
) -> Place<'a>
    ensures { place_of result ≡ walked_place (context_of context) (option_copied reading.entry)
        (option_map lines_of (option_copied text.entry)) (parts_view parts.entry) kind
        (walked_of walked.entry) }
{
    match walked.failed {
        Some(wanted) => {
            let hint = hint_of(text, kind, wanted, split_word(walked.rest).0);
            Place::at(parts.front, walked.rest, hint)
        }
        None => line_at(context, reading, parts),
    }
}

// The same for the operands of a line.
fn operands_place<'a>(
    context: Context,
    reading: Option<&Reading<'_>>,
    text: Option<&[u8]>,
    parts: Parts<'a>,
    kind: TextFaultKind,
) -> Place<'a>
    ensures { place_of result ≡ operands_place (context_of context) (option_copied reading.entry)
        (option_map lines_of (option_copied text.entry)) (parts_view parts.entry) kind
        (operands_of context.lines parts.entry.words.now) }
{
    match operands_of(context.lines, parts.words) {
        Some(operands) => {
            let words = split_word(parts.words).1;
            let walked = walk_all(Test::Right, context, reading, operands, words);
            walked_place(context, reading, text, parts, kind, walked)
        }
        None => line_at(context, reading, parts),
    }
}

fn is_wrong_label(reading: Option<&Reading<'_>>, lost: bool, label: &[u8]) -> bool
    ensures { result ≡ is_wrong_label (option_copied reading.entry) lost label.now }
{
    match reading {
        Some(_) if lost => !is_name(label),
        Some(reading) => reading.may_label(label).is_err(),
        None => false,
    }
}

fn label_place<'a>(text: Option<&[u8]>, parts: Parts<'_>, label: &'a [u8]) -> Place<'a>
    ensures { place_of result ≡ label_place (option_map lines_of (option_copied text.entry))
        (parts_view parts.entry) label.now }
{
    let column = parts.front.len().saturating_sub(parts.said.len()) + 1;
    Place::new(column, label, hint_for_name(text, Operand::NewName, label))
}

// The place of a name that is none: in front of a line, or among the operands.
fn name_place<'a>(
    context: Context,
    reading: Option<&Reading<'_>>,
    lost: bool,
    text: Option<&[u8]>,
    parts: Parts<'a>,
) -> Place<'a>
    ensures { place_of result ≡ name_place (context_of context) (option_copied reading.entry) lost
        (option_map lines_of (option_copied text.entry)) (parts_view parts.entry)
        (option_copied parts.entry.label) }
{
    match parts.label {
        Some(label) if is_wrong_label(reading, lost, label) => label_place(text, parts, label),
        _ => operands_place(context, reading, text, parts, TextFaultKind::BadName),
    }
}

fn among_hint(is_last: bool) -> Hint
    ensures { result ≡ among_hint is_last }
{
    if is_last {
        Hint::DoubleNumber
    } else {
        Hint::DoubleAmong
    }
}

// The place of the last of the threads that a line declares, of which not the first one was declared
// before.
fn last_place<'a>(
    context: Context,
    reading: Option<&Reading<'_>>,
    front: &[u8],
    last: &'a [u8],
) -> Place<'a>
    ensures { place_of result ≡
        last_place (context_of context) (option_copied reading.entry) front.now last.now }
{
    let is_last = is_double(reading, thread_in(context, reading, split_word(last).0));
    Place::at(front, last, among_hint(is_last))
}

// The place of the thread that was declared before. `rest` are the words behind `thread`.
fn double_place<'a>(
    context: Context,
    reading: Option<&Reading<'_>>,
    front: &[u8],
    rest: &'a [u8],
) -> Place<'a>
    ensures { place_of result ≡
        double_place (context_of context) (option_copied reading.entry) front.now rest.now }
{
    let (first, others) = split_word(rest);
    if is_double(reading, thread_in(context, reading, first)) {
        return Place::at(front, rest, Hint::DoubleNumber);
    }
    last_place(context, reading, front, split_word(others).1)
}

fn kind_place<'a>(
    context: Context,
    reading: Option<&Reading<'_>>,
    lost: bool,
    text: Option<&[u8]>,
    number: usize,
    line: &'a [u8],
    kind: TextFaultKind,
) -> Place<'a>
    ensures { place_of result ≡ kind_place (context_of context) (option_copied reading.entry) lost
        (option_map lines_of (option_copied text.entry)) number line.now kind }
{
    let parts = parts_of(line);
    match kind {
        TextFaultKind::BadLine => form_place(context, reading, number, line, wrong_byte(line)),
        TextFaultKind::BadName => name_place(context, reading, lost, text, parts),
        TextFaultKind::DoubleId => {
            double_place(context, reading, parts.front, split_word(parts.words).1)
        }
        TextFaultKind::TooManyThreads => Place::at(parts.front, parts.words, Hint::ManyThreads),
        TextFaultKind::TooManyInstructions => {
            Place::at(parts.front, parts.words, Hint::ManyInstructions)
        }
        _ => operands_place(context, reading, text, parts, kind),
    }
}

/// The place of the fault of this kind, in the line of this number. `text` is there where it is
/// told on which line a name is declared.
pub(super) fn line_place<'a>(
    stage: &Stage<'_>,
    lost: bool,
    text: Option<&[u8]>,
    number: usize,
    line: &'a [u8],
    kind: TextFaultKind,
) -> Place<'a>
    ensures { place_of result ≡ line_place (stage_of stage.now) lost
        (option_map lines_of (option_copied text.entry)) number line.now kind }
{
    let context = context_at(stage, lost);
    kind_place(context, reading_in(stage), lost, text, number, line, kind)
}

// The hint for a name that a script does not have, by the line that declares it.
fn elsewhere(hint: Hint) -> Hint
    ensures { result ≡ elsewhere hint }
{
    match hint {
        Hint::DeclaredOn(number) => Hint::ElsewhereOn(number),
        _ => hint,
    }
}

fn missed_hint(text: &[u8], kind: TextFaultKind, word: &[u8]) -> Hint
    ensures { result ≡ missed_hint (lines_of text.now) kind word.now }
{
    match kind {
        TextFaultKind::BadName => elsewhere(name_hint(text, word)),
        _ => Hint::Wanted(Operand::NamedPlace),
    }
}

/// The place of what a line names that its script does not have.
pub(super) fn missed_place<'a>(text: &[u8], line: &'a [u8], kind: TextFaultKind) -> Place<'a>
    ensures { place_of result ≡ missed_place (lines_of text.now) line.now kind }
{
    let parts = parts_of(line);
    let target = target_in(parts.words);
    Place::at(
        parts.front,
        target,
        missed_hint(text, kind, split_word(target).0),
    )
}
