//! What a case says of a stream that may differ from run to run: how often it has a part.

use std::alloc::Global;
use std::{io, str};

// What is asked of a line, without the count: `= PART` of parts, `== LINE` of whole lines.
fn counted_part(line: &str) -> Option<(&str, &str)> {
    let (mark, rest) = line.split_once(' ')?;
    let (_count, part) = rest.split_once(' ')?;
    (mark == "=" || mark == "==").then_some((mark, part))
}

// How often a line is one of these, which are in order.
fn count_of(lines: &[&str], line: &str) -> usize {
    let before = lines.partition_point(|other| *other < line);
    let with_it = lines.partition_point(|other| *other <= line);
    with_it.saturating_sub(before)
}

/// What was written to a stream, as the case speaks of it: where it counts parts or lines, how
/// often each is there.
pub fn as_counted(alloc: Global, wanted: &[u8], written: Vec<u8>) -> io::Result<Vec<u8>> {
    let wanted = str::from_utf8(wanted).unwrap_or("");
    if counted_part(wanted).is_none() {
        return Ok(written);
    }
    let text = str::from_utf8(written.as_slice()).unwrap_or("");
    let mut lines: Vec<&str> = text.lines().collect(alloc)?;
    lines.sort()?;
    let mut counts = String::new(alloc);
    for line in wanted.lines() {
        if let Some((mark, part)) = counted_part(line) {
            let count = match mark {
                "=" => text.matches(part).count(),
                _ => count_of(lines.as_slice(), part),
            };
            writeln!(counts, "{mark} {count} {part}")?;
        }
    }
    Ok(counts.into_bytes())
}
