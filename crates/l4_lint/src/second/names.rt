//! Where a name is declared, and which declared name is near.
ghost use Rattle.std.specs.Prelude.{◌≡◌, None, drop};
ghost use Rattle.std.specs.Option.{option_copied};
ghost use Rattle.l4_lint.specs.Lines.{lines_of};
ghost use Rattle.l4_lint.specs.Second.Names.{are_exchanged, are_near, declared_by, declared_hint};
ghost use Rattle.l4_lint.specs.Second.Names.{differ_once, first_near, name_hint, named_by, near_or};
ghost use Rattle.l4_lint.specs.Second.Names.{same_letter, same_letters};

use super::parts::parts_of;
use crate::bytes::split_word;
use crate::faults::next_line;
use crate::hints::Hint;
use l4_script::text::second::is_name;

const NAME: &[u8] = b"name";

// The name of an id that words declare.
fn named_by(words: &[u8]) -> Option<&[u8]>
    ensures { option_copied result ≡ named_by words.now }
{
    let (first, others) = split_word(words);
    if first == NAME {
        Some(split_word(others).0)
    } else {
        None
    }
}

// The name that a line declares: of an instruction, or of an id.
fn declared_by(line: &[u8]) -> Option<&[u8]>
    ensures { option_copied result ≡ declared_by line.now }
{
    let parts = parts_of(line);
    match parts.label {
        Some(label) => Some(label),
        None => named_by(parts.words),
    }
}

fn same_letter(one: u8, other: u8) -> bool
    ensures { result ≡ same_letter one other }
{
    one.to_ascii_lowercase() == other.to_ascii_lowercase()
}

fn same_letters(one: &[u8], other: &[u8]) -> bool
    ensures { result ≡ same_letters one.now other.now }
{
    one.eq_ignore_ascii_case(other)
}

// Whether two neighbours are exchanged, and all else is the same.
fn are_exchanged(one: &[u8], other: &[u8]) -> bool
    ensures { result ≡ are_exchanged one.now other.now }
{
    match (one, other) {
        ([a, b, one @ ..], [c, d, other @ ..]) => {
            *a == *d && *b == *c && same_letters(one, other)
        }
        _ => false,
    }
}

fn without_first(bytes: &[u8]) -> &[u8]
    ensures { result.now ≡ drop 1 bytes.now }
{
    if bytes.is_empty() { bytes } else { &bytes[1..] }
}

fn differ_once(one: &[u8], other: &[u8]) -> bool
    ensures { result ≡ differ_once one.now other.now }
{
    same_letters(without_first(one), without_first(other))
        || same_letters(one, without_first(other))
        || same_letters(without_first(one), other)
        || are_exchanged(one, other)
}

// Whether names differ in upper and lower case alone, or besides in one byte, which is another one
// or missing, or in two neighbours that are exchanged.
fn are_near(one: &[u8], other: &[u8]) -> bool
    ensures { result ≡ are_near one.now other.now }
{
    let mut left = one;
    let mut right = other;
    'letters: while !left.is_empty() && !right.is_empty() && same_letter(left[0], right[0]) {
        left = &left[1..];
        right = &right[1..];
    }
    differ_once(left, right)
}

fn first_near(near: Option<usize>, number: usize, name: &[u8], word: &[u8]) -> Option<usize>
    ensures { result ≡ first_near near number name.now word.now }
{
    match near {
        Some(before) => Some(before),
        None if are_near(name, word) => Some(number),
        None => None,
    }
}

fn near_or(near: Option<usize>) -> Hint
    ensures { result ≡ near_or near }
{
    match near {
        Some(number) => Hint::NearOn(number),
        None => Hint::Unknown,
    }
}

// The first line of a text that declares a name, or else the first that declares one that is near.
fn declared_hint(text: &[u8], word: &[u8]) -> Hint
    ensures { result ≡ declared_hint word.now (lines_of text.now) 1 None }
{
    let mut near = None;
    let mut rest = text;
    let mut number = 1;
    'lines: while let Some((line, others)) = next_line(rest) {
        if let Some(name) = declared_by(line) {
            if name == word {
                return Hint::DeclaredOn(number);
            }
            near = first_near(near, number, name, word);
        }
        rest = others;
        number += 1;
    }
    near_or(near)
}

/// What is said of a word in the place of a name.
pub(super) fn name_hint(text: &[u8], word: &[u8]) -> Hint
    ensures { result ≡ name_hint (lines_of text.now) word.now }
{
    if is_name(word) {
        declared_hint(text, word)
    } else {
        Hint::NoName
    }
}
