//! The lines of a trace: one for each step.
ghost use Rattle.std.specs.Prelude.{◌≡◌, ◌≤◌, ◌+◌, ◌*◌, true, List, [], ◌∷◌, ◌++◌, codes, decimal};
ghost use Rattle.std.specs.Prelude.{length, drop, OnOk, OnErr};
ghost use Rattle.std.specs.List.{list_all};
ghost use Rattle.l4_model.specs.Words.{is_global};
ghost use Rattle.l4_model.specs.Steps.{Step as ModelStep, Tick as ModelTick};
ghost use Rattle.l4_types.specs.StepView.{delivered, seen, step_of, order_kind_of};
ghost use Rattle.l4_trace.specs.Lines.{thread_word, name_word, order_kind_word, line_of};
ghost use Rattle.l4_trace.specs.Lines.{line_of_words, trace_of, is_name, is_word, has_line};
ghost use Rattle.l4_trace.specs.Lines.{hexadecimal};

use crate::keywords::{DELIVER, by_keyword};
use crate::texts::{Anew, Speller};
use l4_types::errors::NoMemory;
use l4_types::ids::GlobalId;
use l4_types::messages::MOST_WORDS;
use l4_types::step_ref::{DeliveryRef, StepRef};
use l4_types::steps::{Name, OrderKind, Step, Tick};
use l4_words::digits::{write_byte, write_bytes};
use l4_words::pieces::{WORD_BYTES, write_number, write_word, write_words};

// The first word of a line, and the last one of an order, take at most this many bytes.
const KEYWORD_BYTES: usize = 8;

/// A line takes at most this many bytes, as that of a delivery whose message has the most words.
pub(crate) const LONGEST_LINE: usize = 134 + WORD_BYTES * MOST_WORDS;

// The line of a step, by the row of its keyword.
macro_rules! write_rows {
    (
        ($step:ident, $speller:ident, $line:ident, $end:ident)
        $($keyword:literal => $variant:ident $fields:tt, $read:ident,
            $write:ident($($operand:ident),*);)*
    ) => {
        match $step {
            Step::Deliver(delivery) => write_delivery(delivery, $speller, $line, $end),
            $(Step::$variant $fields => $write($keyword, $(*$operand,)* $speller, $line, $end),)*
        }
    };
}

/// Appends the line of a step, with its line feed. If memory is refused, nothing is appended.
pub fn write_event(step: &Step, out: &mut Vec<u8>) -> Result<(), NoMemory>
    ensures ok { OnOk result (out.new.items ≡ out.old.items ++ line_of (step_of step.now)) }
    ensures spelled { OnOk result (has_line (step_of step.now) ≡ true) }
    ensures err { OnErr result (out.new.items ≡ out.old.items) }
{
    write_step(&StepRef::from(step), out)
}

/// Appends the line of a borrowed step, with its line feed. If memory is refused, nothing is
/// appended.
pub fn write_step(step: &StepRef<'_>, out: &mut Vec<u8>) -> Result<(), NoMemory>
    ensures ok { OnOk result (out.new.items ≡ out.old.items ++ line_of (seen step.now)) }
    ensures spelled { OnOk result (has_line (seen step.now) ≡ true) }
    ensures err { OnErr result (out.new.items ≡ out.old.items) }
{
    let mut line = [0; LONGEST_LINE];
    append_line(step, &mut line, out)
}

/// Appends the line of a step. The line is written into the buffer `line` first, since only then is
/// its length known. One buffer serves many lines. Inlined: looking at a step costs less than
/// making one to pass on.
#[inline(always)]
pub(crate) fn append_line(
    step: &StepRef<'_>,
    line: &mut [u8],
    out: &mut Vec<u8>,
) -> Result<(), NoMemory>
    requires { LONGEST_LINE ≤ length line.old }
    ensures ok { OnOk result (out.new.items ≡ out.old.items ++ line_of (seen step.now)) }
    ensures spelled { OnOk result (has_line (seen step.now) ≡ true) }
    ensures err { OnErr result (out.new.items ≡ out.old.items) }
{
    let end = line.len();
    let start = write_line(step, &mut Anew, line, end);
    out.extend_from_slice(&line[start..])?;
    Ok(())
}

/// Writes the line of a step just before `end` in the room for lines. Returns where it starts.
#[inline(always)]
pub(crate) fn write_line<S: Speller>(
    step: &StepRef<'_>,
    speller: &mut S,
    line: &mut [u8],
    end: usize,
) -> usize
    requires room { LONGEST_LINE ≤ end }
    requires within { end ≤ length line.old }
    ensures room { end ≤ result + LONGEST_LINE }
    ensures within { result ≤ end }
    ensures written { drop result line.new ≡ line_of (seen step.now) ++ drop end line.old }
    ensures spelled { has_line (seen step.now) ≡ true }
{
    by_keyword!(write_rows(step, speller, line, end))
}

// Inlined, since each caller knows the step: a keyword of known length is copied in one go.
#[inline(always)]
pub(crate) fn write_thread_line<S: Speller>(
    keyword: &[u8],
    thread: GlobalId,
    speller: &mut S,
    line: &mut [u8],
    end: usize,
) -> usize
    requires short { length keyword.now ≤ KEYWORD_BYTES }
    requires room { LONGEST_LINE ≤ end }
    requires within { end ≤ length line.old }
    ensures room { end ≤ result + LONGEST_LINE }
    ensures within { result ≤ end }
    ensures written { drop result line.new ≡
        (keyword.now ++ codes " " ++ thread_word thread ++ codes "\n") ++ drop end line.old }
    ensures spelled { is_global thread ≡ true }
{
    let feed = write_byte(b'\n', line, end);
    let start = speller.write_thread(thread, line, feed);
    write_bytes(keyword, line, start)
}

// Writes the line of a keyword and the name of a send.
#[inline(always)]
pub(crate) fn write_name_line<S: Speller>(
    keyword: &[u8],
    name: Name,
    speller: &mut S,
    line: &mut [u8],
    end: usize,
) -> usize
    requires short { length keyword.now ≤ KEYWORD_BYTES }
    requires room { LONGEST_LINE ≤ end }
    requires within { end ≤ length line.old }
    ensures room { end ≤ result + LONGEST_LINE }
    ensures within { result ≤ end }
    ensures written { drop result line.new ≡
        (keyword.now ++ codes " " ++ name_word name ++ codes "\n") ++ drop end line.old }
    ensures spelled { is_name name ≡ true }
{
    let feed = write_byte(b'\n', line, end);
    let start = speller.write_name(name, line, feed);
    write_bytes(keyword, line, start)
}

// Writes the line of a delivery. Inlined, since a step that is passed on lies in memory as a whole.
#[inline(always)]
pub(crate) fn write_delivery<S: Speller>(
    delivery: &DeliveryRef<'_>,
    speller: &mut S,
    line: &mut [u8],
    end: usize,
) -> usize
    requires room { LONGEST_LINE ≤ end }
    requires within { end ≤ length line.old }
    ensures room { end ≤ result + LONGEST_LINE }
    ensures within { result ≤ end }
    ensures written { drop result line.new ≡
        line_of (delivered delivery.now) ++ drop end line.old }
    ensures spelled { has_line (delivered delivery.now) ≡ true }
{
    let message = &delivery.message;
    let feed = write_byte(b'\n', line, end);
    let words = write_words(message.words(), line, feed);
    let tag = write_tag(delivery.tag().raw(), line, words);
    let actual = speller.write_thread(message.actual(), line, tag);
    let shown = speller.write_thread(message.shown(), line, actual);
    let receiver = speller.write_thread(delivery.receiver, line, shown);
    let name = speller.write_name(delivery.name, line, receiver);
    write_bytes(DELIVER, line, name)
}

// Writes a space and a tag. Most tags are of no word, no label and no flag.
#[inline(always)]
fn write_tag(tag: u64, line: &mut [u8], end: usize) -> usize
    requires room { WORD_BYTES ≤ end }
    requires within { end ≤ length line.old }
    ensures room { end ≤ result + WORD_BYTES }
    ensures within { result ≤ end }
    ensures written { drop result line.new ≡ codes " " ++ hexadecimal tag ++ drop end line.old }
    ensures spelled { is_word tag ≡ true }
{
    if tag == 0 {
        return write_bytes(b" 0", line, end);
    }
    write_word(tag, line, end)
}

fn write_order<S: Speller>(
    keyword: &[u8],
    caller: GlobalId,
    target: GlobalId,
    what: OrderKind,
    speller: &mut S,
    line: &mut [u8],
    end: usize,
) -> usize
    requires short { length keyword.now ≤ KEYWORD_BYTES }
    requires room { LONGEST_LINE ≤ end }
    requires within { end ≤ length line.old }
    ensures room { end ≤ result + LONGEST_LINE }
    ensures within { result ≤ end }
    ensures written { drop result line.new ≡
        line_of_words (keyword.now ∷ thread_word caller ∷ thread_word target ∷
        order_kind_word (order_kind_of what) ∷ []) ++ drop end line.old }
    ensures caller { is_global caller ≡ true }
    ensures target { is_global target ≡ true }
{
    let feed = write_byte(b'\n', line, end);
    let word = write_bytes(spelled(what), line, feed);
    let space = write_byte(b' ', line, word);
    let second = speller.write_thread(target, line, space);
    let first = speller.write_thread(caller, line, second);
    write_bytes(keyword, line, first)
}

fn write_tick<S: Speller>(
    keyword: &[u8],
    tick: Tick,
    _speller: &mut S,
    line: &mut [u8],
    end: usize,
) -> usize
    requires short { length keyword.now ≤ KEYWORD_BYTES }
    requires room { LONGEST_LINE ≤ end }
    requires within { end ≤ length line.old }
    ensures room { end ≤ result + LONGEST_LINE }
    ensures within { result ≤ end }
    ensures written { drop result line.new ≡
        line_of_words (keyword.now ∷ decimal tick.cpu ∷ decimal tick.clock ∷ []) ++
        drop end line.old }
    ensures spelled { has_line (ModelTick tick.cpu tick.clock) ≡ true }
{
    let feed = write_byte(b'\n', line, end);
    let clock = write_number(tick.clock(), line, feed);
    let cpu = write_number(u64::from(tick.cpu()), line, clock);
    write_bytes(keyword, line, cpu)
}

fn spelled(what: OrderKind) -> &'static [u8]
    ensures word { result.now ≡ order_kind_word (order_kind_of what) }
    ensures short { length result.now ≤ KEYWORD_BYTES }
{
    match what {
        OrderKind::CancelSend => b"S",
        OrderKind::CancelReceive => b"R",
        OrderKind::CancelBoth => b"SR",
        OrderKind::Delete => b"delete",
    }
}

/// A text is the trace of at most one list of steps.
pub fn law_one_spelling()
    ensures { (g h : List ModelStep) → list_all has_line g ≡ true → list_all has_line h ≡ true →
        trace_of g ≡ trace_of h → g ≡ h }
{}
