//! Operands of scripts of version 2.
ghost use Rattle.std.specs.Prelude.{◌≡◌, ◌≤◌, ◌||◌, ◌==◌, is_some, drop, take, length, codes, IfOk};
ghost use Rattle.l4_model.specs.Words.{period_limit};
ghost use Rattle.l4_types.specs.Inner.FormatView.{format_of};
ghost use Rattle.l4_types.specs.Inner.PeriodView.{period_of, IsTimely};
ghost use Rattle.l4_script.specs.Judged.{Returns};
ghost use Rattle.l4_script.specs.Canonical.{exponent_of, is_exponent};
ghost use Rattle.l4_script.specs.Inner.Scripts.{id_from_of};
ghost use Rattle.l4_script.specs.Inner.Second.{place_of as place_view};
ghost use Rattle.l4_script.specs.Second.Operands.{register_of, id_or_register_of, id_or_last_of};
ghost use Rattle.l4_script.specs.Second.Operands.{place_of, exact_period, counted};
ghost use Rattle.l4_script.specs.Second.Operands.{second_time_from};

use super::super::fault::TextFaultKind;
use super::super::numbers::{number, time};
use super::super::statements::LAST_REGISTER;
use super::lines::ends_with_byte;
use super::names::{Named, id_named, is_name, is_register_word};
use crate::instructions::{IdFrom, Source};
use l4_types::formats::Format;
use l4_types::times::Period;
use l4_words::numbers::decimal;

/// An instruction that a line names: by its number in its script, or by its name.
#[derive(Clone, Copy, Debug)]
pub enum Place<'a> {
    /// By its number, counted from 0.
    Numbered(u64),
    /// By its name.
    Labelled(&'a [u8]),
}

// `mrA`: the id whose word MR A has, in decimal digits without a leading zero.
#[inline(never)]
#[tactic(auto, unfolding(crate::specs::Second::Operands::register_of))]
fn register(format: Format, word: &[u8]) -> Result<IdFrom, TextFaultKind>
    requires { 2 ≤ length word.now }
    ensures { Returns id_from_of result (register_of (format_of format) word.now) }
{
    let number = decimal(&word[2..]).ok_or(TextFaultKind::BadId)?;
    if number > LAST_REGISTER {
        return Err(TextFaultKind::BadId);
    }
    let source = Source::new(number as u8).ok_or(TextFaultKind::BadId)?;
    Ok(IdFrom::InRegister(format, source))
}

/// Where an id is from: a register, an id or a name.
#[inline(always)]
#[tactic(auto, unfolding(crate::specs::Second::Operands::id_or_register_of))]
pub fn id_or_register(
    format: Format,
    names: &[Named<'_>],
    word: &[u8],
) -> Result<IdFrom, TextFaultKind>
    ensures { Returns id_from_of result (id_or_register_of (format_of format) names.now word.now) }
{
    if is_register_word(word) {
        register(format, word)
    } else {
        Ok(IdFrom::Fixed(id_named(format, names, word)?))
    }
}

/// The same, or `last`.
#[inline(always)]
#[tactic(auto, unfolding(crate::specs::Second::Operands::id_or_last_of))]
pub fn id_or_last(format: Format, names: &[Named<'_>], word: &[u8]) -> Result<IdFrom, TextFaultKind>
    ensures { Returns id_from_of result (id_or_last_of (format_of format) names.now word.now) }
{
    match word {
        b"last" => Ok(IdFrom::Last),
        _ => id_or_register(format, names, word),
    }
}

/// An instruction of the script by its number or its name, else `BadNumber`.
#[tactic(auto, unfolding(crate::specs::Second::Operands::place_of))]
pub fn named_place(word: &[u8]) -> Result<Place<'_>, TextFaultKind>
    ensures { Returns place_view result (place_of word.now) }
{
    match number(word) {
        Some(place) => Ok(Place::Numbered(place)),
        None if is_name(word) => Ok(Place::Labelled(word)),
        None => Err(TextFaultKind::BadNumber),
    }
}

// A time multiplies its mantissa, which is below this, with one of so many powers of two.
const MANTISSAS: u64 = 1 << 10;

const EXPONENTS: u64 = 32;

fn is_exponent(ticks: u64, exponent: u64) -> bool
    requires { exponent ≤ 31 }
    ensures { result ≡ is_exponent ticks exponent }
{
    let mantissa = ticks >> exponent;
    mantissa < MANTISSAS && mantissa << exponent == ticks
}

// Whether some time means exactly so many ticks.
#[tactic(auto, unfolding(crate::specs::Canonical::exponent_of))]
fn has_time(ticks: u64) -> bool
    ensures { result ≡ is_some (exponent_of ticks) }
{
    for exponent in 0..EXPONENTS {
        if is_exponent(ticks, exponent) {
            return true;
        }
    }
    false
}

#[tactic(auto, using(crate::proofs::Endings::exponent_small))]
fn exact_period(ticks: u64) -> Result<Period, TextFaultKind>
    ensures value { Returns period_of result (exact_period ticks) }
    ensures timely { IfOk result (λ period. IsTimely period) }
{
    if ticks == 0 {
        return Ok(Period::Zero);
    }
    if has_time(ticks) {
        Ok(Period::Ticks(ticks))
    } else {
        Err(TextFaultKind::BadNumber)
    }
}

// So many units of microseconds.
#[tactic(auto, using(crate::proofs::Endings::too_many))]
fn counted(unit: u64, digits: &[u8]) -> Result<Period, TextFaultKind>
    requires { 1 ≤ unit }
    ensures value { Returns period_of result (counted unit digits.now) }
    ensures timely { IfOk result (λ period. IsTimely period) }
{
    let count = decimal(digits).ok_or(TextFaultKind::BadNumber)?;
    match count.checked_mul(unit) {
        Some(ticks) => exact_period(ticks),
        None => Err(TextFaultKind::BadNumber),
    }
}

/// A time as in version 1, or `5us`, `5ms`, `2s`: so many microseconds, thousands or millions of
/// them, where a time means these exactly. Else `BadNumber`.
#[inline(always)]
#[tactic(auto, using(crate::proofs::Endings::plain_time))]
pub fn second_time(word: &[u8]) -> Result<Period, TextFaultKind>
    ensures value { Returns period_of result (second_time_from word.now) }
    ensures timely { IfOk result (λ period. IsTimely period) }
{
    if ends_with_byte(b's', word) {
        counted_time(word)
    } else {
        time(word)
    }
}

// A time that ends with `s`.
#[inline(never)]
#[tactic(auto, unfolding(crate::specs::Second::Operands::second_time_from))]
fn counted_time(word: &[u8]) -> Result<Period, TextFaultKind>
    ensures value { Returns period_of result (second_time_from word.now) }
    ensures timely { IfOk result (λ period. IsTimely period) }
{
    if let Some(digits) = word.strip_suffix(b"us") {
        return counted(1, digits);
    }
    if let Some(digits) = word.strip_suffix(b"ms") {
        return counted(1_000, digits);
    }
    match word.strip_suffix(b"s") {
        Some(digits) => counted(1_000_000, digits),
        None => time(word),
    }
}
