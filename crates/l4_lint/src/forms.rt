//! The place of a line's fault.
ghost use Rattle.std.specs.Prelude.{◌≡◌, ◌≤◌, ◌<◌, length, IfSome};
ghost use Rattle.std.specs.Option.{option_copied};
ghost use Rattle.l4_lint.specs.Forms.{first_hint, surplus_hint, keywords_place, counted_place};
ghost use Rattle.l4_lint.specs.Forms.{words_place, spaced_place, form_place, walked_place};
ghost use Rattle.l4_lint.specs.Forms.{operands_place, line_place};
ghost use Rattle.l4_lint.specs.Inner.Views.{context_of, place_of, walked_of};

use crate::bytes::{bad_byte, byte_hint, clear, split_word};
use crate::commands::operands_of;
use crate::contexts::Context;
use crate::hints::{Hint, Lines, Operand};
use crate::judging::operand_hint;
use crate::places::Place;
use crate::walks::{Test, Walked, walk};
use l4_script::text::{TextFaultKind, has_empty_word};

/// The hint for a first word that begins none of these lines.
fn first_hint(lines: Lines, word: &[u8]) -> Hint
    ensures { result ≡ first_hint lines word.now }
{
    if word.starts_with(b"#") || word.starts_with(b"//") {
        Hint::OtherComment
    } else {
        Hint::Begins(lines)
    }
}

/// The hint for a surplus word. A comment begins with `;` and stands on a line of its own.
fn surplus_hint(rest: &[u8]) -> Hint
    ensures { result ≡ surplus_hint rest.now }
{
    if rest.starts_with(b";") {
        Hint::CommentBehind
    } else {
        Hint::Surplus
    }
}

/// The place of the first word that is not the keyword wanted there.
fn keywords_place<'a>(context: Context, line: &'a [u8], walked: Walked<'a>) -> Place<'a>
    requires short { length line.now ≤ 0x10_0000 }
    requires rest { length walked.rest.now ≤ length line.now }
    ensures { place_of result
        ≡ keywords_place (context_of context) line.now (walked_of walked.entry) }
{
    match walked.failed {
        Some(wanted) => Place::at(line, walked.rest, Hint::Wanted(wanted)),
        None => Place::at(line, line, Hint::Begins(context.lines)),
    }
}

/// The place of a missing or surplus word, or else of a wrong keyword.
fn counted_place<'a>(
    context: Context,
    line: &'a [u8],
    operands: &[Operand],
    walked: Walked<'a>,
) -> Place<'a>
    requires short { length line.now ≤ 0x10_0000 }
    requires rest { length walked.rest.now ≤ length line.now }
    ensures { place_of result
        ≡ counted_place (context_of context) line.now operands.now (walked_of walked.entry) }
{
    if let Some(wanted) = walked.failed {
        return Place::at(line, walked.rest, Hint::Wanted(wanted));
    }
    if !walked.rest.is_empty() {
        return Place::at(line, walked.rest, surplus_hint(walked.rest));
    }
    let words = split_word(line).1;
    keywords_place(context, line, walk(Test::Keyword, context, operands, words))
}

/// The place of the word that breaks the form of its line.
fn words_place<'a>(context: Context, line: &'a [u8], operands: Option<&[Operand]>) -> Place<'a>
    requires { length line.now ≤ 0x10_0000 }
    ensures { place_of result
        ≡ words_place (context_of context) line.now (option_copied operands.entry) }
{
    let (word, words) = split_word(line);
    match operands {
        Some(operands) => {
            let walked = walk(Test::Present, context, operands, words);
            counted_place(context, line, operands, walked)
        }
        None => Place::at(line, line, first_hint(context.lines, word)),
    }
}

/// The place of a surplus space, or else of the word that breaks the form of its line.
fn spaced_place<'a>(context: Context, line: &'a [u8]) -> Place<'a>
    requires { length line.now ≤ 0x10_0000 }
    ensures { place_of result ≡ spaced_place (context_of context) line.now }
{
    if has_empty_word(line) {
        return Place::new(clear(line) + 1, b"", Hint::Space);
    }
    words_place(
        context,
        line,
        operands_of(context.lines, split_word(line).0),
    )
}

/// The place of what breaks the form of a line. `bad` is the place of a byte that is not printable.
fn form_place<'a>(context: Context, number: usize, line: &'a [u8], bad: Option<usize>) -> Place<'a>
    requires short { length line.now ≤ 0x10_0000 }
    requires within { IfSome bad (λ index. index < length line.now) }
    ensures { place_of result ≡ form_place (context_of context) number line.now bad }
{
    match bad {
        Some(index) => {
            let hint = byte_hint(number, line, line[index]);
            Place::new(index + 1, &line[index..index + 1], hint)
        }
        None => spaced_place(context, line),
    }
}

/// The place of the first wrong operand from the left, by the kind of its fault.
fn walked_place<'a>(
    context: Context,
    kind: TextFaultKind,
    line: &'a [u8],
    walked: Walked<'a>,
) -> Place<'a>
    requires short { length line.now ≤ 0x10_0000 }
    requires rest { length walked.rest.now ≤ length line.now }
    ensures { place_of result
        ≡ walked_place (context_of context) kind line.now (walked_of walked.entry) }
{
    match walked.failed {
        Some(wanted) => {
            let hint = operand_hint(kind, wanted, split_word(walked.rest).0);
            Place::at(line, walked.rest, hint)
        }
        None => Place::at(line, line, Hint::Begins(context.lines)),
    }
}

/// The same for the operands of a line.
fn operands_place<'a>(
    context: Context,
    kind: TextFaultKind,
    line: &'a [u8],
    operands: Option<&[Operand]>,
) -> Place<'a>
    requires { length line.now ≤ 0x10_0000 }
    ensures { place_of result
        ≡ operands_place (context_of context) kind line.now (option_copied operands.entry) }
{
    match operands {
        Some(operands) => {
            let words = split_word(line).1;
            let walked = walk(Test::Right, context, operands, words);
            walked_place(context, kind, line, walked)
        }
        None => Place::at(line, line, Hint::Begins(context.lines)),
    }
}

/// The place of the fault of this kind, in the line of this number.
pub(crate) fn line_place<'a>(
    context: Context,
    number: usize,
    line: &'a [u8],
    kind: TextFaultKind,
) -> Place<'a>
    requires { length line.now ≤ 0x10_0000 }
    ensures { place_of result ≡ line_place (context_of context) number line.now kind }
{
    let (word, words) = split_word(line);
    match kind {
        TextFaultKind::BadLine => form_place(context, number, line, bad_byte(line)),
        TextFaultKind::DoubleId => Place::at(line, words, Hint::DoubleNumber),
        TextFaultKind::TooManyThreads => Place::at(line, line, Hint::ManyThreads),
        TextFaultKind::TooManyInstructions => Place::at(line, line, Hint::ManyInstructions),
        TextFaultKind::BadTarget => Place::at(line, words, Hint::Wanted(Operand::Place)),
        _ => operands_place(context, kind, line, operands_of(context.lines, word)),
    }
}
