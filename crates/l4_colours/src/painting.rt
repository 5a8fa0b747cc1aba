//! Painted text, written without memory.
ghost use Rattle.std.specs.Prelude.{◌≡◌, ◌++◌, ◌<◌, ◌≤◌, ◌-◌, IfSome, MatchOption, MatchResult};
ghost use Rattle.std.specs.Prelude.{drop, length, take, true, false};
ghost use Rattle.l4_streams.specs.Streams.{MayTake};
ghost use Rattle.l4_colours.specs.Painted.{begin_of, end, painted};

use crate::tones::{Tone, is_plain, line_tone};
use l4_streams::streams::{NotWritten, Sink};
use l4_words::lines::split_once;
use std::io::Write;

// What ends a painted line, before its line end.
const END: &[u8] = b"\x1b[0m";

// What begins a line of this tone.
fn begin_of(tone: Tone) -> &'static [u8]
    ensures { result.now ≡ begin_of tone }
{
    match tone {
        Tone::Plain => b"",
        Tone::Good => b"\x1b[32m",
        Tone::Fair => b"\x1b[33m",
        Tone::Bad => b"\x1b[31m",
    }
}

/// The first line of a text that has a tone, and what stands around it.
#[derive(Clone, Copy)]
struct Toned<'a> {
    before: &'a [u8],
    tone: Tone,
    line: &'a [u8],
    // With the end of the line, where it has one.
    behind: &'a [u8],
}

// This line, with which `left` begins, in the text that ends with `left`.
fn toned_in<'a>(text: &'a [u8], left: &'a [u8], tone: Tone, line: &'a [u8]) -> Toned<'a>
    requires left { length left.now ≤ length text.now }
    requires line { length line.now ≤ length left.now }
    ensures before { result.before.now ≡ take (length text.now - length left.now) text.now }
    ensures tone { result.tone ≡ tone }
    ensures line { result.line.now ≡ line.now }
    ensures behind { result.behind.now ≡ drop (length line.now) left.now }
{
    Toned {
        before: &text[..text.len() - left.len()],
        tone,
        line,
        behind: &left[line.len()..],
    }
}

// None where no line has a tone.
fn first_toned(text: &[u8]) -> Option<Toned<'_>>
    ensures parts { MatchOption result (painted text.now ≡ text.now) (λ toned. painted text.now
        ≡ toned.before.now ++ (begin_of toned.tone ++ (toned.line.now ++ (end
        ++ painted toned.behind.now)))) }
    ensures shorter { IfSome result (λ toned. length toned.behind.now < length text.now) }
{
    let mut left = text;
    'lines: while let Some((line, rest)) = split_once(b'\n', left) {
        let tone = line_tone(line);
        if !is_plain(tone) {
            return Some(toned_in(text, left, tone, line));
        }
        left = rest;
    }
    let tone = line_tone(left);
    if is_plain(tone) {
        return None;
    }
    Some(toned_in(text, left, tone, left))
}

// Writes a line that has a tone, and what stands before it, or a beginning of that.
fn put_toned<W: Write>(out: &mut W, toned: &Toned<'_>) -> Result<(), NotWritten>
    ensures { MatchResult result
        (λ _. MayTake (W.contents out.old) (W.contents out.new) (toned.now.before.now
        ++ (begin_of toned.now.tone ++ (toned.now.line.now ++ end))) true)
        (λ _. MayTake (W.contents out.old) (W.contents out.new) (toned.now.before.now
        ++ (begin_of toned.now.tone ++ (toned.now.line.now ++ end))) false) }
{
    out.put(toned.before)?;
    out.put(begin_of(toned.tone))?;
    out.put(toned.line)?;
    out.put(END)
}

/// Writes a text whose lines are painted, or a beginning of that, and flushes.
pub fn paint<W: Write>(out: &mut W, text: &[u8]) -> Result<(), NotWritten>
    ensures { MatchResult result
        (λ _. MayTake (W.contents out.old) (W.contents out.new) (painted text.now) true)
        (λ _. MayTake (W.contents out.old) (W.contents out.new) (painted text.now) false) }
{
    let mut left = text;
    'lines: while let Some(toned) = first_toned(left) {
        put_toned(out, &toned)?;
        left = toned.behind;
    }
    out.put(left)
}
