//! Whether a word is right in its place.
ghost use Rattle.std.specs.Prelude.{◌≡◌, ◌<◌, IfSome, is_some, length};
ghost use Rattle.l4_types.specs.Inner.FormatView.{format_of};
ghost use Rattle.l4_script.specs.Numbers.{number_of, word_from};
ghost use Rattle.l4_script.specs.Second.Names.{is_digit};
ghost use Rattle.l4_lint.specs.Judging.{is_one_of, is_untyped, is_right, is_keyword, is_threadless};
ghost use Rattle.l4_lint.specs.Judging.{has_no_thread, id_hint, number_hint, operand_hint};
ghost use Rattle.l4_lint.specs.Judging.{are_digits, has_capital, has_capital_prefix, has_capitals};
ghost use Rattle.l4_lint.specs.Judging.{has_letter, has_unit, number_end};
ghost use Rattle.l4_lint.specs.Judging.{is_capital_digit, is_letter_digit};
ghost use Rattle.l4_lint.specs.Judging.{is_like_hexadecimal, is_time, is_unit, lacks_prefix};
ghost use Rattle.l4_lint.specs.Inner.Views.{context_of};

use crate::bytes::split_at_byte;
use crate::contexts::Context;
use crate::hints::{Hint, Operand};
use l4_script::text::{
    TextFaultKind, bits, destination, id, number, number_from, processor, thread_in, time,
    word_from,
};
use l4_types::formats::Format;
use l4_types::registers::MESSAGE_REGISTERS;
use l4_types::steps::MOST_PROCESSORS;
use l4_words::numbers::decimal;

const LAST_REGISTER: u64 = MESSAGE_REGISTERS as u64 - 1;

const CPU: &[u8] = b"cpu";

const SPACE: &[u8] = b"space";

const LAST: &[u8] = b"last";

const ZERO: &[u8] = b"0";

const MICROSECONDS: &[u8] = b"us";

const MILLISECONDS: &[u8] = b"ms";

const SECONDS: &[u8] = b"s";

fn is_one_of(first: u64, second: u64, word: &[u8]) -> bool
    ensures { result ≡ is_one_of first second (number_of word.now) }
{
    match number(word) {
        Some(number) => number == first || number == second,
        None => false,
    }
}

/// Whether a word is a tag without typed words.
fn is_untyped(format: Format, word: &[u8]) -> bool
    ensures { result ≡ is_untyped (word_from (format_of format) word.now) }
{
    match word_from(format, word) {
        Ok(word) => word / 64 % 64 == 0,
        Err(_) => false,
    }
}

/// Whether the word is right for this operand.
pub(crate) fn is_right(context: Context, operand: Operand, word: &[u8]) -> bool
    ensures { result ≡ is_right (context_of context) operand word.now }
{
    match operand {
        Operand::Profile => is_one_of(1, 2, word),
        Operand::Width => is_one_of(64, 32, word),
        Operand::Processors => number_from(1, u64::from(MOST_PROCESSORS), word).is_ok(),
        Operand::Thread => thread_in(context.format, word).is_some(),
        Operand::CpuKeyword => word == CPU,
        Operand::Processor => processor(context.cpus, word).is_ok(),
        Operand::SpaceKeyword => word == SPACE,
        Operand::Space => number_from(0, u64::from(u32::MAX), word).is_ok(),
        Operand::Register => number_from(1, LAST_REGISTER, word).is_ok(),
        Operand::Source => number_from(0, LAST_REGISTER, word).is_ok(),
        Operand::Word => word_from(context.format, word).is_ok(),
        Operand::Tag => is_untyped(context.format, word),
        Operand::Id => id(context.format, word).is_some(),
        Operand::Destination => destination(context.format, word).is_ok(),
        Operand::Time => time(word).is_ok(),
        Operand::Bits => bits(word).is_some(),
        Operand::Place => number(word).is_some(),
        // Those of scripts of version 2 are judged beside their names.
        _ => false,
    }
}

/// Whether the operand is a keyword, which is judged with the form of its line.
pub(crate) fn is_keyword(operand: Operand) -> bool
    ensures { result ≡ is_keyword operand }
{
    matches!(
        operand,
        Operand::CpuKeyword
            | Operand::SpaceKeyword
            | Operand::Bits
            | Operand::ToKeyword
            | Operand::AsKeyword
    )
}

/// Whether both numbers are there, and no thread has this version.
fn is_threadless(number: Option<u64>, version: Option<u64>) -> bool
    ensures { result ≡ is_threadless number version }
{
    match (number, version) {
        (Some(_), Some(version)) => version % 64 == 0,
        _ => false,
    }
}

/// Whether a word is `N.V` with a version that no thread has.
pub(crate) fn has_no_thread(word: &[u8]) -> bool
    ensures { result ≡ has_no_thread word.now }
{
    let (number, version) = split_at_byte(b'.', word);
    is_threadless(decimal(number), decimal(version))
}

/// The hint for a word that is no id.
fn id_hint(wanted: Operand, word: &[u8]) -> Hint
    ensures { result ≡ id_hint wanted word.now }
{
    if word == LAST {
        Hint::Last
    } else if has_no_thread(word) {
        Hint::Version
    } else {
        Hint::Wanted(wanted)
    }
}

/// Whether a byte is a decimal digit.
pub(crate) fn is_digit(byte: u8) -> bool
    ensures { result ≡ is_digit byte }
{
    matches!(byte, b'0'..=b'9')
}

fn is_capital_digit(byte: u8) -> bool
    ensures { result ≡ is_capital_digit byte }
{
    matches!(byte, b'A'..=b'F')
}

fn is_letter_digit(byte: u8) -> bool
    ensures { result ≡ is_letter_digit byte }
{
    is_capital_digit(byte) || matches!(byte, b'a'..=b'f')
}

/// Whether each byte is a digit of a hexadecimal number, in either case.
fn are_digits(word: &[u8]) -> bool
    ensures { result ≡ are_digits word.now }
{
    word.iter()
        .all(|byte| is_digit(*byte) || is_letter_digit(*byte))
}

fn has_letter(word: &[u8]) -> bool
    ensures { result ≡ has_letter word.now }
{
    word.iter().any(|byte| is_letter_digit(*byte))
}

fn has_capital(word: &[u8]) -> bool
    ensures { result ≡ has_capital word.now }
{
    word.iter().any(|byte| is_capital_digit(*byte))
}

fn lacks_prefix(word: &[u8]) -> bool
    ensures { result ≡ lacks_prefix word.now }
{
    are_digits(word) && has_letter(word)
}

fn has_capitals(front: &[u8], behind: &[u8]) -> bool
    ensures { result ≡ has_capitals front.now behind.now }
{
    front == ZERO && are_digits(behind) && has_capital(behind)
}

fn has_capital_prefix(front: &[u8], behind: &[u8]) -> bool
    ensures { result ≡ has_capital_prefix front.now behind.now }
{
    front == ZERO && are_digits(behind) && !behind.is_empty()
}

/// Whether a word may be meant as a hexadecimal number: without `0x`, or in upper case.
fn is_like_hexadecimal(word: &[u8]) -> bool
    ensures { result ≡ is_like_hexadecimal word.now }
{
    let (front, behind) = split_at_byte(b'x', word);
    let (capital_front, capital_behind) = split_at_byte(b'X', word);
    lacks_prefix(word)
        || has_capitals(front, behind)
        || has_capital_prefix(capital_front, capital_behind)
}

fn is_unit(word: &[u8]) -> bool
    ensures { result ≡ is_unit word.now }
{
    word == MICROSECONDS || word == MILLISECONDS || word == SECONDS
}

/// Where the decimal digits end that a word begins with.
fn number_end(word: &[u8]) -> Option<usize>
    ensures value { result ≡ number_end word.now }
    ensures within { IfSome result (λ index. index < length word.now) }
{
    word.iter().position(|byte| !is_digit(*byte))
}

/// Whether a word is a decimal number with a unit of time behind it.
fn has_unit(word: &[u8]) -> bool
    ensures { result ≡ has_unit word.now }
{
    match number_end(word) {
        Some(end) => end > 0 && is_unit(&word[end..]),
        None => false,
    }
}

fn is_time(operand: Operand) -> bool
    ensures { result ≡ is_time operand }
{
    matches!(operand, Operand::Time)
}

/// The hint for a word that is no number, or is out of range.
pub(crate) fn number_hint(wanted: Operand, word: &[u8]) -> Hint
    ensures { result ≡ number_hint wanted word.now }
{
    if is_like_hexadecimal(word) {
        Hint::Hexadecimal
    } else if is_time(wanted) && has_unit(word) {
        Hint::TimeUnit
    } else {
        Hint::Wanted(wanted)
    }
}

/// The hint for a word in the place of this operand, by the kind of its fault.
pub(crate) fn operand_hint(kind: TextFaultKind, wanted: Operand, word: &[u8]) -> Hint
    ensures { result ≡ operand_hint kind wanted word.now }
{
    match kind {
        TextFaultKind::TypedItems => Hint::TypedItems,
        TextFaultKind::BadId => id_hint(wanted, word),
        TextFaultKind::BadNumber => number_hint(wanted, word),
        _ => Hint::Wanted(wanted),
    }
}
