//! The lines of a machine text, and their words.
ghost use Rattle.std.specs.Prelude.{◌≡◌, ◌&&◌, not};
ghost use Rattle.l4_script.specs.Lines.{has_empty_word, is_printable, is_skipped, line_of, after};

use super::fault::TextFaultKind;
use l4_words::words::Words;

/// What a line says: its words, or nothing where it is empty or a comment. `BadLine` where a byte
/// is not printable, or a word is empty.
#[inline(always)]
#[tactic(auto, unfolding(crate::specs::Lines::line_of))]
pub fn words_of(line: &[u8]) -> Result<Option<Words<'_>>, TextFaultKind>
    ensures { result ≡ line_of line.now }
{
    if is_skipped(line) {
        return if is_printable(line) {
            Ok(None)
        } else {
            Err(TextFaultKind::BadLine)
        };
    }
    if !has_plain_words(line) {
        return Err(TextFaultKind::BadLine);
    }
    Ok(Some(Words::of(line)))
}

#[inline(always)]
fn is_skipped(line: &[u8]) -> bool
    ensures { result ≡ is_skipped line.now }
{
    line.is_empty() || line[0] == b';'
}

pub(super) fn is_printable(line: &[u8]) -> bool
    ensures { result ≡ is_printable line.now }
{
    line.iter().all(|byte| matches!(byte, b' '..=b'~'))
}

// Whether all bytes of a line are printable, and no word is empty.
#[inline(always)]
#[tactic(auto, using(crate::proofs::PlainWords::letter, crate::proofs::PlainWords::space, crate::proofs::PlainWords::no_word, crate::proofs::PlainWords::not_shown))]
pub(super) fn has_plain_words(line: &[u8]) -> bool
    ensures { result ≡ (is_printable line.now && not (has_empty_word line.now)) }
{
    let mut begins = true;
    for byte in line {
        if matches!(byte, b'!'..=b'~') {
            begins = false;
        } else if *byte == b' ' && !begins {
            begins = true;
        } else {
            return false;
        }
    }
    !begins
}

/// Whether a space stands in front of the first word of a line, behind the last one, or behind
/// another space.
pub fn has_empty_word(line: &[u8]) -> bool
    ensures { result ≡ has_empty_word line.now }
{
    line.split(|byte| *byte == b' ').any(|word| word.is_empty())
}

/// The words after this keyword.
pub(super) fn after<'a>(keyword: &[u8], mut words: Words<'a>) -> Result<Words<'a>, TextFaultKind>
    ensures { result ≡ after keyword.now words.entry }
{
    match words.next() {
        Some(word) if word == keyword => Ok(words),
        _ => Err(TextFaultKind::BadLine),
    }
}
