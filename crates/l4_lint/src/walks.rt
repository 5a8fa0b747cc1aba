//! The operands of a line from left to right.
ghost use Rattle.std.specs.Prelude.{◌≡◌, ◌≤◌, length};
ghost use Rattle.l4_lint.specs.Walks.{passes, walk};
ghost use Rattle.l4_lint.specs.Inner.Views.{context_of, walked_of};

use crate::bytes::split_word;
use crate::contexts::Context;
use crate::hints::Operand;
use crate::judging::{is_keyword, is_right};

/// What a walk tests of each operand.
#[derive(Clone, Copy)]
pub(crate) enum Test {
    /// A word is there.
    Present,
    /// Where a keyword is wanted, the word is right.
    Keyword,
    /// The word is right.
    Right,
}

/// The first operand that does not pass and the rest of the line from there, or what stands behind
/// all of them.
#[derive(Clone, Copy)]
pub(crate) struct Walked<'a> {
    pub(crate) rest: &'a [u8],
    pub(crate) failed: Option<Operand>,
}

fn passes(test: Test, context: Context, operand: Operand, word: &[u8]) -> bool
    ensures { result ≡ passes test (context_of context) operand word.now }
{
    match test {
        Test::Present => !word.is_empty(),
        Test::Keyword => !is_keyword(operand) || is_right(context, operand, word),
        Test::Right => is_right(context, operand, word),
    }
}

/// Tests the operands one after another, until one does not pass.
pub(crate) fn walk<'a>(
    test: Test,
    context: Context,
    operands: &[Operand],
    words: &'a [u8],
) -> Walked<'a>
    ensures value { walked_of result ≡ walk test (context_of context) operands.now words.now }
    ensures within { length result.rest.now ≤ length words.now }
{
    let mut rest = words;
    for operand in operands {
        let (word, others) = split_word(rest);
        if !passes(test, context, *operand, word) {
            return Walked {
                rest,
                failed: Some(*operand),
            };
        }
        rest = others;
    }
    Walked { rest, failed: None }
}
