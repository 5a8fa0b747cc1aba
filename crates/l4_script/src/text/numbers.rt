//! Numbers as machine texts spell them.
ghost use Rattle.std.specs.Prelude.{◌≡◌, ◌≤◌, IfOk};
ghost use Rattle.l4_types.specs.Inner.FormatView.{format_of};
ghost use Rattle.l4_types.specs.Inner.PeriodView.{period_of, IsTimely};
ghost use Rattle.l4_script.specs.Judged.{Returns};
ghost use Rattle.l4_script.specs.Numbers.{number_of, number_from, word_from, period_number};
ghost use Rattle.l4_script.specs.Numbers.{time_from};

use super::fault::TextFaultKind;
use l4_types::formats::Format;
use l4_types::times::{Period, time_of};
use l4_words::numbers::{decimal, padded_hexadecimal};

/// The number of a word, in decimal or hexadecimal digits. None where it spells no number.
pub fn number(word: &[u8]) -> Option<u64>
    ensures { result ≡ number_of word.now }
{
    match word.strip_prefix(b"0x") {
        Some(digits) => padded_hexadecimal(digits),
        None => decimal(word),
    }
}

/// A number from `low` to `high`, else `BadNumber`.
#[tactic(auto, unfolding(crate::specs::Numbers::number_from))]
pub fn number_from(low: u64, high: u64, word: &[u8]) -> Result<u64, TextFaultKind>
    ensures value { result ≡ number_from low high word.now }
    ensures range { IfOk result (λ value. (low ≤ value) × (value ≤ high)) }
{
    let value = number(word).ok_or(TextFaultKind::BadNumber)?;
    if low <= value && value <= high {
        Ok(value)
    } else {
        Err(TextFaultKind::BadNumber)
    }
}

/// A word of a format, else `BadNumber`.
#[tactic(auto, unfolding(crate::specs::Numbers::word_from))]
pub fn word_from(format: Format, word: &[u8]) -> Result<u64, TextFaultKind>
    ensures { result ≡ word_from (format_of format) word.now }
{
    let value = number(word).ok_or(TextFaultKind::BadNumber)?;
    if format.has(value) {
        Ok(value)
    } else {
        Err(TextFaultKind::BadNumber)
    }
}

/// The period of a time that a number spells.
#[tactic(auto, unfolding(crate::specs::Numbers::period_number))]
fn period_number(word: &[u8]) -> Result<Period, TextFaultKind>
    ensures value { Returns period_of result (period_number word.now) }
    ensures timely { IfOk result (λ period. IsTimely period) }
{
    let time = number_from(0, 0x7fff, word)?;
    time_of(time as u16).ok_or(TextFaultKind::BadNumber)
}

/// The period of a time: `never`, `zero`, or a number of 15 bits. Else `BadNumber`.
#[tactic(auto, unfolding(crate::specs::Numbers::time_from))]
pub fn time(word: &[u8]) -> Result<Period, TextFaultKind>
    ensures value { Returns period_of result (time_from word.now) }
    ensures timely { IfOk result (λ period. IsTimely period) }
{
    match word {
        b"never" => Ok(Period::Never),
        b"zero" => Ok(Period::Zero),
        _ => period_number(word),
    }
}
