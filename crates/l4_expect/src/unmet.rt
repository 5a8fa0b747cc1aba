//! Which expectations a report does not meet, and what is printed of them.
ghost use Rattle.std.specs.Prelude.{◌≡◌, ◌++◌, find, flat_map, map, OnOk, codes, decimal};
ghost use Rattle.std.specs.Option.{option_copied};
ghost use Rattle.std.specs.Str.{bytes_eq};
ghost use Rattle.l4_words.specs.Words.{words_in};
ghost use Rattle.l4_lines.specs.Lines.{has_line, lines_of};
ghost use Rattle.l4_expect.specs.Unmet.{fits_next, found_beside, found_words, is_beside, is_met};
ghost use Rattle.l4_expect.specs.Unmet.{are_met, tells_of, unmet_line, unmet_part, verb};
ghost use Rattle.l4_expect.specs.Inner.Views.{expected_of};

use crate::expectations::Expectation;
use l4_lines::lines::{find_line, fits_line, fits_word};
use l4_types::errors::NoMemory;
use l4_words::lines::split_line;
use l4_words::words::Words;

/// Whether a report has a line that is asked for.
pub(crate) fn has_line(asked: &[u8], report: &[u8]) -> bool
    ensures { result ≡ has_line asked.now report.now }
{
    find_line(asked, report).is_some()
}

/// Whether an expectation holds of a report.
pub(crate) fn is_met(report: &[u8], expected: &Expectation<'_>) -> bool
    ensures { result ≡ is_met report.now (expected_of expected.now) }
{
    if expected.never {
        !has_line(expected.asked, report)
    } else {
        has_line(expected.asked, report)
    }
}

/// Whether all of some expectations hold of a report.
pub(crate) fn are_met(report: &[u8], expectations: &[Expectation<'_>]) -> bool
    ensures { result ≡ are_met report.now (map expected_of expectations.now) }
{
    for expected in expectations {
        if !is_met(report, expected) {
            return false;
        }
    }
    true
}

fn fits_next(mut asked: Words<'_>, mut words: Words<'_>) -> bool
    ensures { result ≡ fits_next asked.entry words.entry }
{
    let Some(next) = asked.next() else {
        return false;
    };
    let Some(word) = words.next() else {
        return false;
    };
    fits_word(next, word)
}

// Whether a line is about the same thread or send as one that is asked for, or both about the
// ending.
fn tells_of(mut asked: Words<'_>, mut words: Words<'_>) -> bool
    ensures { result ≡ tells_of asked.entry words.entry }
{
    let Some(first) = asked.next() else {
        return false;
    };
    let Some(word) = words.next() else {
        return false;
    };
    fits_word(first, word) && (is_of_ending(word) || fits_next(asked, words))
}

fn is_of_ending(word: &[u8]) -> bool
    ensures { result ≡ bytes_eq word.now (codes "ending") }
{
    word == b"ending".as_slice()
}

fn is_beside(expected: &Expectation<'_>, line: &[u8]) -> bool
    ensures { result ≡ is_beside (expected_of expected.now) line.now }
{
    if expected.never {
        fits_line(expected.asked, line)
    } else {
        tells_of(Words::of(expected.asked), Words::of(line))
    }
}

// What a report has in the place of an expectation that it does not meet.
fn found_beside<'r>(report: &'r [u8], expected: &Expectation<'_>) -> Option<&'r [u8]>
    ensures { option_copied result ≡ found_beside report.now (expected_of expected.now) }
{
    let mut left = report;
    'lines: while let Some((line, rest)) = split_line(left) {
        if is_beside(expected, line) {
            return Some(line);
        }
        left = rest;
    }
    None
}

fn verb(never: bool) -> &'static [u8]
    ensures { result.now ≡ verb never }
{
    if never { b": never: " } else { b": wanted: " }
}

fn found_words(found: Option<&[u8]>) -> &[u8]
    ensures { result.now ≡ found_words (option_copied found.entry) }
{
    match found {
        Some(line) => line,
        None => b"nothing",
    }
}

fn push_number(lines: &mut Vec<u8>, number: usize) -> Result<(), NoMemory>
    ensures { OnOk result (lines.new.items ≡ lines.old.items ++ codes "line " ++ decimal number) }
{
    let mut words = String::new(*lines.allocator());
    write!(words, "line {number}")?;
    lines.extend_from_slice(words.as_bytes())?;
    Ok(())
}

// Appends what is printed of an expectation that does not hold.
fn push_line(lines: &mut Vec<u8>, report: &[u8], expected: &Expectation<'_>) -> Result<(), NoMemory>
    ensures { OnOk result (lines.new.items ≡
        lines.old.items ++ unmet_line report.now (expected_of expected.now)) }
{
    push_number(lines, expected.number)?;
    lines.extend_from_slice(verb(expected.never))?;
    lines.extend_from_slice(expected.asked)?;
    lines.extend_from_slice(b"; found: ")?;
    lines.extend_from_slice(found_words(found_beside(report, expected)))?;
    lines.push(b'\n')?;
    Ok(())
}

// Appends what is printed of an expectation that does not hold, or nothing.
fn push_unless_met(
    lines: &mut Vec<u8>,
    report: &[u8],
    expected: &Expectation<'_>,
) -> Result<(), NoMemory>
    ensures { OnOk result (lines.new.items ≡
        lines.old.items ++ unmet_part report.now (expected_of expected.now)) }
{
    if is_met(report, expected) {
        return Ok(());
    }
    push_line(lines, report, expected)
}

/// Appends a line for each expectation that does not hold of a report.
pub(crate) fn push_unmet(
    lines: &mut Vec<u8>,
    report: &[u8],
    expectations: &[Expectation<'_>],
) -> Result<(), NoMemory>
    ensures { OnOk result (lines.new.items ≡
        lines.old.items ++ flat_map (unmet_part report.now) (map expected_of expectations.now)) }
{
    for expected in expectations {
        push_unless_met(lines, report, expected)?;
    }
    Ok(())
}
