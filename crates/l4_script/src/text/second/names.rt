//! Names in texts with scripts of version 2: of ids, and of the instructions of a script.
ghost use Rattle.std.specs.Prelude.{◌≡◌};
ghost use Rattle.std.specs.List.{list_all};
ghost use Rattle.l4_types.specs.Inner.FormatView.{format_of};
ghost use Rattle.l4_script.specs.Second.Names.{is_letter, is_digit, is_name_byte, is_name};
ghost use Rattle.l4_script.specs.Second.Names.{begins_with_letter, is_register_word, is_among};
ghost use Rattle.l4_script.specs.Second.Names.{line_words, plain_instructions, branches};
ghost use Rattle.l4_script.specs.Second.Names.{operand_words};
ghost use Rattle.l4_script.specs.Second.Names.{is_keyword, id_under, id_by_name, id_named};
ghost use Rattle.l4_script.specs.Second.Names.{thread_named};

use super::super::fault::TextFaultKind;
use super::super::ids::{id, thread_in};
use super::super::operations::operation;
use super::super::statements::is;
use l4_types::formats::Format;
use l4_types::ids::{GlobalId, ThreadId};
use std::marker::Model;

/// How many bytes a name has at most.
const MOST_NAME_BYTES: usize = 31;

/// How many ids have names at most, and how many instructions of a script.
pub const MOST_NAMES: usize = 1024;

/// A name that a text declares, and its id.
#[derive(Debug, Drop)]
pub struct Named<'a> {
    pub(super) name: &'a [u8],
    pub(super) id: ThreadId,
}

impl<'a> Model for Named<'a> {
    ghost use Rattle.l4_script.specs.Second.Names.{Named as DeclaredName};

    ghost Value = { DeclaredName };

    ghost view = { λ n. record { name = n.name.now; id = n.id } };
}

fn is_letter(byte: u8) -> bool
    ensures { result ≡ is_letter byte }
{
    matches!(byte, b'A'..=b'Z' | b'a'..=b'z')
}

fn is_digit(byte: u8) -> bool
    ensures { result ≡ is_digit byte }
{
    matches!(byte, b'0'..=b'9')
}

// A letter, a digit, `-` or `_`.
fn is_name_byte(byte: u8) -> bool
    ensures { result ≡ is_name_byte byte }
{
    is_letter(byte) || is_digit(byte) || byte == b'-' || byte == b'_'
}

fn begins_with_letter(word: &[u8]) -> bool
    ensures { result ≡ begins_with_letter word.now }
{
    match word.first() {
        Some(byte) => is_letter(*byte),
        None => false,
    }
}

fn are_digits(bytes: &[u8]) -> bool
    ensures { result ≡ list_all is_digit bytes.now }
{
    bytes.iter().all(|byte| is_digit(*byte))
}

fn are_name_bytes(bytes: &[u8]) -> bool
    ensures { result ≡ list_all is_name_byte bytes.now }
{
    bytes.iter().all(|byte| is_name_byte(*byte))
}

/// Whether `mr` and digits behind it name a register, there or not.
pub(super) fn is_register_word(word: &[u8]) -> bool
    ensures { result ≡ is_register_word word.now }
{
    match word.strip_prefix(b"mr") {
        Some(digits) => !digits.is_empty() && are_digits(digits),
        None => false,
    }
}

// A first word of a line in front of the scripts, or one behind it.
#[inline(always)]
fn is_line_word(word: &[u8]) -> bool
    ensures { result ≡ is_among line_words word.now }
{
    is(word, b"l4")
        || is(word, b"cpus")
        || is(word, b"name")
        || is(word, b"thread")
        || is(word, b"cpu")
        || is(word, b"space")
        || is(word, b"to")
        || is(word, b"as")
}

// A first word of an instruction that goes on with the next, unless it does an operation.
#[inline(always)]
fn is_plain_instruction(word: &[u8]) -> bool
    ensures { result ≡ is_among plain_instructions word.now }
{
    is(word, b"set")
        || is(word, b"copy")
        || is(word, b"from")
        || is(word, b"tag")
        || is(word, b"vs")
        || is(word, b"ipc")
        || is(word, b"exregs")
        || is(word, b"delete")
        || is(word, b"end")
}

/// A first word of an instruction that names another.
#[inline(always)]
pub(super) fn is_branch(word: &[u8]) -> bool
    ensures { result ≡ is_among branches word.now }
{
    is(word, b"jump")
        || is(word, b"onerr")
        || is(word, b"onlabel")
        || is(word, b"onword")
        || is(word, b"onfrom")
}

// A word that stands for an id, a time or bits.
#[inline(always)]
fn is_operand_word(word: &[u8]) -> bool
    ensures { result ≡ is_among operand_words word.now }
{
    is(word, b"nil")
        || is(word, b"any")
        || is(word, b"anylocal")
        || is(word, b"last")
        || is(word, b"never")
        || is(word, b"zero")
        || is(word, b"S")
        || is(word, b"R")
        || is(word, b"SR")
}

fn is_keyword(word: &[u8]) -> bool
    ensures { result ≡ is_keyword word.now }
{
    is_register_word(word)
        || is_line_word(word)
        || operation(word).is_some()
        || is_plain_instruction(word)
        || is_branch(word)
        || is_operand_word(word)
}

/// Whether a word is a name: a letter, and behind it letters, digits, `-` and `_`; at most 31
/// bytes, and no keyword.
#[tactic(auto, unfolding(crate::specs::Second::Names::is_name))]
pub fn is_name(word: &[u8]) -> bool
    ensures { result ≡ is_name word.now }
{
    begins_with_letter(word)
        && word.len() <= MOST_NAME_BYTES
        && are_name_bytes(word)
        && !is_keyword(word)
}

/// The id that a name stands for.
pub(super) fn id_under(names: &[Named<'_>], name: &[u8]) -> Option<ThreadId>
    ensures { result ≡ id_under names.now name.now }
{
    names
        .iter()
        .find(|named| named.name == name)
        .map(|named| named.id)
}

// The id that a word names which spells none.
#[inline(never)]
#[tactic(auto, unfolding(crate::specs::Second::Names::id_by_name))]
fn id_by_name(names: &[Named<'_>], word: &[u8]) -> Result<ThreadId, TextFaultKind>
    ensures { result ≡ id_by_name names.now word.now }
{
    if is_name(word) {
        id_under(names, word).ok_or(TextFaultKind::BadName)
    } else {
        Err(TextFaultKind::BadId)
    }
}

/// An id as version 1 spells it, or by a name.
#[tactic(auto, unfolding(crate::specs::Second::Names::id_named))]
pub fn id_named(format: Format, names: &[Named<'_>], word: &[u8]) -> Result<ThreadId, TextFaultKind>
    ensures { result ≡ id_named (format_of format) names.now word.now }
{
    match id(format, word) {
        Some(id) => Ok(id),
        None => id_by_name(names, word),
    }
}

/// The id of a thread: a global one.
#[tactic(auto, unfolding(crate::specs::Second::Names::thread_named))]
pub fn thread_named(
    format: Format,
    names: &[Named<'_>],
    word: &[u8],
) -> Result<GlobalId, TextFaultKind>
    ensures { result ≡ thread_named (format_of format) names.now word.now }
{
    match thread_in(format, word) {
        Some(id) => Ok(id),
        None => id_by_name(names, word)?
            .as_global()
            .ok_or(TextFaultKind::BadId),
    }
}
