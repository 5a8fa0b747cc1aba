//! How the outcome of a command differs from what its case says.

use crate::outcome::Outcome;
use std::{io, str};

fn text_of(bytes: &[u8]) -> &str {
    str::from_utf8(bytes).unwrap_or("(no text)")
}

// The line of this place, counted from 0.
fn line_at(text: &str, place: usize) -> &str {
    text.split('\n').nth(place).unwrap_or("")
}

// How many lines are the same before the first that differs.
fn same_lines(one: &str, other: &str) -> usize {
    let pairs = one.split('\n').zip(other.split('\n'));
    pairs.take_while(|(left, right)| left == right).count()
}

// Prints the first line that differs, if any does.
fn print_stream<R: Print>(rt: &R, stream: &str, wanted: &[u8], written: &[u8]) -> io::Result<()> {
    if wanted == written {
        return Ok(());
    }
    let wanted = text_of(wanted);
    let written = text_of(written);
    let place = same_lines(wanted, written);
    let line = line_at(wanted, place);
    let other = line_at(written, place);
    let number = place.saturating_add(1);
    println!(rt; "  {stream}, line {number}: wanted '{line}', written '{other}'")
}

/// Prints how what was done differs from what is wanted.
pub fn print_difference<R: Print>(rt: &R, wanted: &Outcome, done: &Outcome) -> io::Result<()> {
    print_stream(
        rt,
        "output",
        wanted.output.as_slice(),
        done.output.as_slice(),
    )?;
    print_stream(
        rt,
        "faults",
        wanted.faults.as_slice(),
        done.faults.as_slice(),
    )?;
    let status = wanted.status;
    let other = done.status;
    if status != other {
        println!(rt; "  status: wanted {status}, written {other}")?;
    }
    Ok(())
}
