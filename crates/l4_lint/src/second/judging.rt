//! Whether a word is right in its place in a line with scripts of version 2, and what is said of
//! one that is not.
ghost use Rattle.std.specs.Prelude.{◌≡◌, ◌≤◌, ◌<◌, ◌-◌, ◌^◌, IfSome};
ghost use Rattle.std.specs.Option.{option_copied};
ghost use Rattle.l4_model.specs.Words.{label_limit_in};
ghost use Rattle.l4_types.specs.Inner.FormatView.{format_of};
ghost use Rattle.l4_lint.specs.Second.Judging.{id_hint, is_declared, is_double, is_last, is_low};
ghost use Rattle.l4_lint.specs.Second.Judging.{is_right};
ghost use Rattle.l4_lint.specs.Second.Judging.{least_exponent, may_be_named, names_in, near_at};
ghost use Rattle.l4_lint.specs.Second.Judging.{near_of, near_times, operand_hint};
ghost use Rattle.l4_lint.specs.Second.Judging.{thread_in, time_hint};
ghost use Rattle.l4_lint.specs.Inner.Views.{context_of};

use crate::bytes::split_word;
use crate::contexts::Context;
use crate::hints::{Hint, Operand};
use crate::judging::{has_no_thread, is_right as is_right_in_first, number_hint};
use l4_script::text::second::{
    Named, Reading, id_named, id_or_last, id_or_register, is_name, named_place, second_time,
    thread_named,
};
use l4_script::text::{TextFaultKind, number_from};
use l4_types::formats::Format;
use l4_types::ids::GlobalId;
use l4_words::numbers::decimal;

const TO: &[u8] = b"to";

const AS: &[u8] = b"as";

// The longest time, in microseconds.
const MOST_TICKS: u64 = 1023 << 31;

// The names that the lines before have declared.
fn names_in<'r>(reading: Option<&'r Reading<'_>>) -> &'r [Named<'r>]
    ensures { result.now ≡ names_in (option_copied reading.entry) }
{
    let Some(reading) = reading else {
        return &[];
    };
    reading.names()
}

fn may_be_named(reading: Option<&Reading<'_>>, word: &[u8]) -> bool
    ensures { result ≡ may_be_named (option_copied reading.entry) word.now }
{
    match reading {
        Some(reading) => reading.may_name(word),
        None => is_name(word),
    }
}

/// The thread that a word names.
pub(super) fn thread_in(
    context: Context,
    reading: Option<&Reading<'_>>,
    word: &[u8],
) -> Result<GlobalId, TextFaultKind>
    ensures { result ≡ thread_in (context_of context) (option_copied reading.entry) word.now }
{
    thread_named(context.format, names_in(reading), word)
}

// Whether a thread is declared before.
fn is_declared(reading: Option<&Reading<'_>>, thread: Result<GlobalId, TextFaultKind>) -> bool
    ensures { result ≡ is_declared (option_copied reading.entry) thread }
{
    match (reading, thread) {
        (Some(reading), Ok(thread)) => reading.machine().place_of(thread).is_some(),
        _ => false,
    }
}

/// Whether a thread before has the number of this one.
pub(super) fn is_double(
    reading: Option<&Reading<'_>>,
    thread: Result<GlobalId, TextFaultKind>,
) -> bool
    ensures { result ≡ is_double (option_copied reading.entry) thread }
{
    match (reading, thread) {
        (Some(reading), Ok(thread)) => reading.machine().has_number(thread.number()),
        _ => false,
    }
}

// Whether a thread may be the last one of a line whose first one this is.
fn is_last(first: Result<GlobalId, TextFaultKind>, last: Result<GlobalId, TextFaultKind>) -> bool
    ensures { result ≡ is_last first last }
{
    match (first, last) {
        (Ok(first), Ok(last)) => {
            last.version() == first.version() && first.number() <= last.number()
        }
        _ => false,
    }
}

// The greatest label of a format.
fn most_label(format: Format) -> u64
    ensures { result ≡ label_limit_in (format_of format) - 1 }
{
    match format {
        Format::W64 => (1 << 48) - 1,
        Format::W32 => (1 << 16) - 1,
    }
}

/// Whether the word is right for this operand. `words` are all behind the first word of the line.
pub(super) fn is_right(
    context: Context,
    reading: Option<&Reading<'_>>,
    words: &[u8],
    operand: Operand,
    word: &[u8],
) -> bool
    ensures { result ≡
        is_right (context_of context) (option_copied reading.entry) words.now operand word.now }
{
    let format = context.format;
    match operand {
        Operand::NamedThread => thread_in(context, reading, word).is_ok(),
        Operand::ToKeyword => word == TO,
        Operand::LastThread => is_last(
            thread_in(context, reading, split_word(words).0),
            thread_in(context, reading, word),
        ),
        Operand::AsKeyword => word == AS,
        Operand::Heir => is_declared(reading, thread_in(context, reading, word)),
        Operand::NewName => may_be_named(reading, word),
        Operand::NamedId => id_named(format, names_in(reading), word).is_ok(),
        Operand::IdOrRegister => id_or_register(format, names_in(reading), word).is_ok(),
        Operand::IdOrLast => id_or_last(format, names_in(reading), word).is_ok(),
        Operand::CountedTime => second_time(word).is_ok(),
        Operand::Label => number_from(0, most_label(format), word).is_ok(),
        Operand::NamedPlace => named_place(word).is_ok(),
        _ => is_right_in_first(context, operand, word),
    }
}

// Whether the mantissa of a time of so many microseconds is below 1024, by its exponent.
fn is_low(ticks: u64, exponent: u64) -> bool
    requires { exponent < 32 }
    ensures { result ≡ is_low ticks exponent }
{
    ticks >> exponent < 1024
}

#[tactic(auto, unfolding(crate::specs::Second::Judging::least_exponent))]
fn least_exponent(ticks: u64) -> Option<u64>
    ensures value { result ≡ least_exponent ticks }
    ensures within { IfSome result (λ exponent. exponent < 32) }
{
    for exponent in 0..32u64 {
        if is_low(ticks, exponent) {
            return Some(exponent);
        }
    }
    None
}

// The two times that are nearest to so many microseconds, if both are times.
fn near_at(ticks: u64, exponent: Option<u64>) -> Option<Hint>
    requires few { ticks < 2 ^ 63 }
    requires within { IfSome exponent (λ exponent. exponent < 32) }
    ensures { result ≡ near_at ticks exponent }
{
    let unit = 1u64 << exponent?;
    let below = ticks / unit * unit;
    let above = below + unit;
    if above <= MOST_TICKS {
        Some(Hint::NearTimes(below, above))
    } else {
        None
    }
}

fn near_times(unit: u64, count: Option<u64>) -> Option<Hint>
    requires { unit ≤ 1000000 }
    ensures { result ≡ near_times unit count }
{
    let count = count?;
    if count > MOST_TICKS {
        return None;
    }
    let ticks = count * unit;
    near_at(ticks, least_exponent(ticks))
}

// The times that are nearest to one that counts microseconds, thousands or millions of them.
fn near_of(word: &[u8]) -> Option<Hint>
    ensures { result ≡ near_of word.now }
{
    if let Some(digits) = word.strip_suffix(b"us") {
        return near_times(1, decimal(digits));
    }
    if let Some(digits) = word.strip_suffix(b"ms") {
        return near_times(1_000, decimal(digits));
    }
    match word.strip_suffix(b"s") {
        Some(digits) => near_times(1_000_000, decimal(digits)),
        None => None,
    }
}

fn time_hint(wanted: Operand, word: &[u8]) -> Hint
    ensures { result ≡ time_hint wanted word.now }
{
    match wanted {
        Operand::CountedTime => near_of(word).unwrap_or(Hint::Wanted(wanted)),
        _ => number_hint(wanted, word),
    }
}

fn id_hint(wanted: Operand, word: &[u8]) -> Hint
    ensures { result ≡ id_hint wanted word.now }
{
    if has_no_thread(word) {
        Hint::Version
    } else {
        Hint::Wanted(wanted)
    }
}

/// The hint for a word in the place of this operand, by the kind of its fault.
pub(super) fn operand_hint(kind: TextFaultKind, wanted: Operand, word: &[u8]) -> Hint
    ensures { result ≡ operand_hint kind wanted word.now }
{
    match kind {
        TextFaultKind::TypedItems => Hint::TypedItems,
        TextFaultKind::BadId => id_hint(wanted, word),
        TextFaultKind::BadNumber => time_hint(wanted, word),
        _ => Hint::Wanted(wanted),
    }
}
