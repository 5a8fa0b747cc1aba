//! Repeats in a case, by which texts as large as they may be are written in short.

use std::alloc::{AllocError, Global};
use std::io;

// Appends a text with a number in the place of each `%`.
fn push_numbered(out: &mut String, text: &str, number: u64) -> Result<(), AllocError> {
    for (place, part) in text.split('%').enumerate() {
        if place > 0 {
            write!(out, "{number}")?;
        }
        out.push_str(part)?;
    }
    Ok(())
}

// Appends what a repeat `TEXT*FIRST..LAST` stands for: the text for each of these numbers, or with
// ` by STEP` for each STEP-th of them.
fn push_repeat(out: &mut String, repeat: &str) -> io::Result<()> {
    let wrong = io::ErrorKind::InvalidData;
    let (text, range) = repeat.rsplit_once('*').ok_or(wrong)?;
    let (first, last) = range.split_once("..").ok_or(wrong)?;
    let (last, step) = last.split_once(" by ").unwrap_or((last, "1"));
    let first: u64 = first.parse().ok().ok_or(wrong)?;
    let last: u64 = last.parse().ok().ok_or(wrong)?;
    let step: u64 = step.parse().ok().ok_or(wrong)?;
    for number in first..=last {
        if number.abs_diff(first).checked_rem(step) == Some(0) {
            push_numbered(out, text, number)?;
        }
    }
    Ok(())
}

/// A case with what its repeats stand for in their place. A repeat stands between braces.
pub fn written_out(alloc: Global, case: &str) -> io::Result<String> {
    let mut out = String::new(alloc);
    for part in case.split('{') {
        let Some((repeat, rest)) = part.split_once('}') else {
            out.push_str(part)?;
            continue;
        };
        push_repeat(&mut out, repeat)?;
        out.push_str(rest)?;
    }
    Ok(out)
}
