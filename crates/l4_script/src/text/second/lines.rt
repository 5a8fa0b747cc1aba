//! Lines of scripts of version 2.
ghost use Rattle.std.specs.Prelude.{◌≡◌, [], true, None, Some, Ok, position};
ghost use Rattle.std.specs.Option.{option_map};
ghost use Rattle.l4_script.specs.Judged.{Returns};
ghost use Rattle.l4_script.specs.Second.Lines.{ends_with_byte, without_last, without_return};
ghost use Rattle.l4_script.specs.Second.Lines.{is_blank, without_first_blanks, without_last_blanks};
ghost use Rattle.l4_script.specs.Second.Lines.{said_in, comment_in, is_clean, is_word_byte};
ghost use Rattle.l4_script.specs.Second.Lines.{first_of, others_of};
ghost use Rattle.l4_words.specs.Words.{words_in};
ghost use Rattle.l4_script.specs.Second.Lines.{said, words_of, judged_said, second_line_of};
ghost use Rattle.l4_script.specs.Inner.Second.{said_of};

use super::super::fault::TextFaultKind;
use super::super::lines::{has_plain_words, is_printable};
use l4_words::lines::find_byte;
use l4_words::words::Words;

/// What a line says: the name of the instruction that follows, if it has one, and words.
#[derive(Drop)]
pub struct Said<'a> {
    /// The name, without its `:`.
    pub label: Option<&'a [u8]>,
    /// The words behind it.
    pub words: Words<'a>,
}

/// Whether the last byte is this one.
pub fn ends_with_byte(byte: u8, bytes: &[u8]) -> bool
    ensures { result ≡ ends_with_byte byte bytes.now }
{
    !bytes.is_empty() && bytes[bytes.len() - 1] == byte
}

/// All but the last byte.
pub fn without_last(bytes: &[u8]) -> &[u8]
    ensures { result.now ≡ without_last bytes.now }
{
    &bytes[..bytes.len().saturating_sub(1)]
}

/// All before one carriage return at the end.
pub fn without_return(line: &[u8]) -> &[u8]
    ensures { result.now ≡ without_return line.now }
{
    if ends_with_byte(b'\r', line) {
        without_last(line)
    } else {
        line
    }
}

// A space or a tab.
fn is_blank(byte: u8) -> bool
    ensures { result ≡ is_blank byte }
{
    byte == b' ' || byte == b'\t'
}

/// What stands behind all blanks in front.
#[tactic(auto, using(crate::proofs::Blanks::first_blank, crate::proofs::Blanks::no_first_blank))]
pub fn without_first_blanks(line: &[u8]) -> &[u8]
    ensures { result.now ≡ without_first_blanks line.now }
{
    let mut left = line;
    'blanks: while !left.is_empty() && is_blank(left[0]) {
        left = &left[1..];
    }
    left
}

/// What stands before all blanks at the end.
#[tactic(auto, using(crate::proofs::Blanks::some_last_blank, crate::proofs::Blanks::other_last))]
pub fn without_last_blanks(line: &[u8]) -> &[u8]
    ensures { result.now ≡ without_last_blanks line.now }
{
    let mut left = line;
    'blanks: while !left.is_empty() && is_blank(left[left.len() - 1]) {
        left = &left[..left.len() - 1];
    }
    left
}

// Whether all bytes are printable but for tabs.
fn is_clean(bytes: &[u8]) -> bool
    ensures { result ≡ is_clean bytes.now }
{
    bytes.iter().all(|byte| matches!(byte, b'\t' | b' '..=b'~'))
}

// What a line says, and the comment behind it.
fn split_comment(line: &[u8]) -> (&[u8], &[u8])
    ensures said { result.0.now ≡ said_in line.now }
    ensures comment { result.1.now ≡ comment_in line.now }
{
    let (said, comment) = match find_byte(b';', line) {
        Some(end) => (&line[..end], &line[end + 1..]),
        None => (line, &line[line.len()..]),
    };
    (without_last_blanks(without_first_blanks(said)), comment)
}

/// What a line says, without the blanks around it, a comment and a carriage return behind it. An
/// instruction of version 1 is all of its line.
pub fn said_part(line: &[u8]) -> &[u8]
    ensures { result.now ≡ said_in (without_return line.now) }
{
    split_comment(without_return(line)).0
}

fn first_blank(said: &[u8]) -> Option<usize>
    ensures { result ≡ position is_blank said.now }
{
    said.iter().position(|byte| is_blank(*byte))
}

/// What stands in front of the first blank, and behind all blanks there.
pub fn split_first(said: &[u8]) -> (&[u8], &[u8])
    ensures first { result.0.now ≡ first_of said.now }
    ensures others { result.1.now ≡ others_of said.now }
{
    match first_blank(said) {
        Some(end) => (&said[..end], without_first_blanks(&said[end + 1..])),
        None => (said, &said[said.len()..]),
    }
}

fn no_words<'a>() -> Words<'a>
    ensures { result ≡ [] }
{
    let mut words = Words::of(b"");
    let _ = words.next();
    words
}

// None, or some with one space between each two. `BadLine` where a byte is not printable, or a word
// is empty.
fn words_of(said: &[u8]) -> Result<Words<'_>, TextFaultKind>
    ensures { result ≡ words_of said.now }
{
    if said.is_empty() {
        return Ok(no_words());
    }
    if !has_plain_words(said) {
        return Err(TextFaultKind::BadLine);
    }
    Ok(Words::of(said))
}

fn judged_said(line: &[u8]) -> Result<Said<'_>, TextFaultKind>
    ensures { Returns said_of result (judged_said line.now) }
{
    let (first, others) = split_first(line);
    if !ends_with_byte(b':', first) {
        let words = words_of(line)?;
        return Ok(Said { label: None, words });
    }
    if !is_printable(first) {
        return Err(TextFaultKind::BadLine);
    }
    let words = words_of(others)?;
    let label = Some(without_last(first));
    Ok(Said { label, words })
}

// Which bytes are printable, but neither a space nor `;` nor `:`. Of each byte, comparing it with the
// ends of two ranges takes five instructions more.
static WORD_BYTES: [bool; 256] = [
    false, false, false, false, false, false, false, false, false, false, false, false, false,
    false, false, false, false, false, false, false, false, false, false, false, false, false,
    false, false, false, false, false, false, false, true, true, true, true, true, true, true,
    true, true, true, true, true, true, true, true, true, true, true, true, true, true, true, true,
    true, true, false, false, true, true, true, true, true, true, true, true, true, true, true,
    true, true, true, true, true, true, true, true, true, true, true, true, true, true, true, true,
    true, true, true, true, true, true, true, true, true, true, true, true, true, true, true, true,
    true, true, true, true, true, true, true, true, true, true, true, true, true, true, true, true,
    true, true, true, true, true, true, true, true, false, false, false, false, false, false,
    false, false, false, false, false, false, false, false, false, false, false, false, false,
    false, false, false, false, false, false, false, false, false, false, false, false, false,
    false, false, false, false, false, false, false, false, false, false, false, false, false,
    false, false, false, false, false, false, false, false, false, false, false, false, false,
    false, false, false, false, false, false, false, false, false, false, false, false, false,
    false, false, false, false, false, false, false, false, false, false, false, false, false,
    false, false, false, false, false, false, false, false, false, false, false, false, false,
    false, false, false, false, false, false, false, false, false, false, false, false, false,
    false, false, false, false, false, false, false, false, false, false, false, false, false,
    false, false, false, false, false, false,
];

#[inline(always)]
fn is_word_byte(byte: u8) -> bool
    ensures { result ≡ is_word_byte byte }
{
    WORD_BYTES[usize::from(byte)]
}

// Whether all bytes of a line are printable, no word is empty, and there is neither `;` nor `:`. So
// the line has words alone.
#[inline(always)]
#[tactic(auto, using(crate::proofs::SimpleLines::word_byte, crate::proofs::SimpleLines::next_word, crate::proofs::SimpleLines::other_byte))]
fn is_simple(line: &[u8]) -> bool
    ensures { result ≡ true → second_line_of line.now ≡ Ok (Some (said None (words_in line.now))) }
{
    let mut begins = true;
    for byte in line {
        if is_word_byte(*byte) {
            begins = false;
        } else if *byte == b' ' && !begins {
            begins = true;
        } else {
            return false;
        }
    }
    !begins
}

/// What a line says, or nothing. `BadLine` where a byte is not printable, or a word is empty.
#[inline(always)]
pub fn line_said(line: &[u8]) -> Result<Option<Said<'_>>, TextFaultKind>
    ensures { Returns (option_map said_of) result (second_line_of line.now) }
{
    if !is_simple(line) {
        return any_line_said(line);
    }
    Ok(Some(Said {
        label: None,
        words: Words::of(line),
    }))
}

// The same, whatever the line has.
#[inline(never)]
#[tactic(auto, unfolding(crate::specs::Second::Lines::second_line_of))]
fn any_line_said(line: &[u8]) -> Result<Option<Said<'_>>, TextFaultKind>
    ensures { Returns (option_map said_of) result (second_line_of line.now) }
{
    let (said, comment) = split_comment(without_return(line));
    if !is_clean(comment) {
        return Err(TextFaultKind::BadLine);
    }
    if said.is_empty() {
        return Ok(None);
    }
    Ok(Some(judged_said(said)?))
}
