// A machine text that ends too early, and bytes that no text has.
use l4_samples::PING;
use l4_script::machine::Machine;
use l4_script::text::{TextFault, TextFaultKind};
use std::alloc::Global;
use std::process::Abort;

// Where the lines of the text end.
const LINE_ENDS: [usize; 8] = [8, 15, 40, 49, 61, 85, 110, 134];

// The fault of a text, or none.
fn fault_of(alloc: Global, text: &[u8]) -> Option<TextFault> {
    match Machine::parse(alloc, text) {
        Ok(_machine) => None,
        Err(fault) => Some(fault),
    }
}

// The fault of a line that is not whole.
fn bad_line(line: usize) -> Option<TextFault> {
    let kind = TextFaultKind::BadLine;
    Some(TextFault { line, kind })
}

// The fault of the text with a carriage return in the place of this byte.
fn fault_with_return_at(alloc: Global, place: usize) -> Option<TextFault> {
    let mut text = PING.as_bytes().to_vec(alloc).ok()?;
    *text.get_mut(place)? = b'\r';
    fault_of(alloc, text.as_slice())
}

// Whether two texts are faulty in this line, which is not whole. One is the text with a carriage
// return in place of this byte, the other its beginning up to this byte. The beginning is a whole
// text if it ends with a line, after both header lines.
fn names_its_line(alloc: Global, place: usize, line: usize, is_start: bool) -> bool {
    let Some(beginning) = PING.as_bytes().get(..place) else {
        return false;
    };
    let is_text = is_start && line > 2;
    let cut = if is_text { None } else { bad_line(line) };
    fault_with_return_at(alloc, place) == bad_line(line) && fault_of(alloc, beginning) == cut
}

// Tries all bytes of this line.
fn try_line<R: AllocGlobal + Abort>(rt: &R, line: usize, start: usize, end: usize) {
    for place in start..end {
        assert!(rt;
            names_its_line(rt.alloc(), place, line, place == start),
            "{place}"
        );
    }
}

#[test]
fn a_text_that_is_cut_or_spoilt_names_the_line(rt: HostRuntime) {
    let mut start = 0;
    for (number, end) in LINE_ENDS.iter().enumerate() {
        try_line(&rt, number + 1, start, *end);
        start = *end;
    }
    assert!(rt; PING.len() == start && fault_of(rt.alloc(), PING.as_bytes()).is_none());
}
