//! What the lines of a condition read of threads.
ghost use Rattle.std.specs.Prelude.{◌≡◌, ◌∷◌, ◌&&◌, not, IfOk, map};
ghost use Rattle.l4_words.specs.Threads.{thread_of, thread_word};
ghost use Rattle.l4_words.specs.Words.{words_in};
ghost use Rattle.l4_lines.specs.Lines.{are_rest, is_any, is_send_of, thread_asked};
ghost use Rattle.l4_condition_lines.specs.Inner.Reading.{columns_read, is_part, line_reads, may_name};
ghost use Rattle.l4_condition_lines.specs.Inner.Reading.{reads_of, send_read, thread_read};
ghost use Rattle.l4_always.specs.Inner.Parts.{has_part, part_of, parts_of, parts_read};

use l4_expect::conditions::Condition;
use l4_lines::lines::{are_rest, fits_word, has_number, is_any, is_rest, thread_asked};
use l4_script::machine::Machine;
use l4_types::errors::NoMemory;
use l4_types::ids::GlobalId;
use l4_words::spelling::push_thread;
use l4_words::threads::thread;
use l4_words::words::Words;
use std::alloc::Global;

/// What a line tells of a thread.
#[derive(Clone, Copy)]
pub(crate) enum Part {
    /// Its state.
    State,
    /// Its ErrorCode.
    Code,
    /// The registers `from` and ActualSender.
    Senders,
    /// Its message registers.
    Registers,
    /// Its undecided send.
    Send,
}

// What the words of a thread's line are, behind its id. Registers stand behind these.
const COLUMNS: &[Part] = &[Part::State, Part::Code, Part::Senders, Part::Senders];

/// Which parts of a thread are read.
#[derive(Clone, Copy)]
pub(crate) struct Parts {
    state: bool,
    code: bool,
    senders: bool,
    registers: bool,
    send: bool,
}

impl Parts {
    /// Whether a part is among them.
    pub(crate) fn has(&self, part: Part) -> bool
        ensures { result ≡ has_part self.now (part_of part) }
    {
        match part {
            Part::State => self.state,
            Part::Code => self.code,
            Part::Senders => self.senders,
            Part::Registers => self.registers,
            Part::Send => self.send,
        }
    }
}

fn is_part(one: Part, other: Part) -> bool
    ensures { result ≡ is_part (part_of one) (part_of other) }
{
    match (one, other) {
        (Part::State, Part::State)
        | (Part::Code, Part::Code)
        | (Part::Senders, Part::Senders)
        | (Part::Registers, Part::Registers)
        | (Part::Send, Part::Send) => true,
        _ => false,
    }
}

// Whether a word, and those that are left behind it, stand for any words.
fn are_all(word: &[u8], others: &Words<'_>) -> bool
    ensures { result ≡ are_rest (word.now ∷ others.now) }
{
    is_rest(word) && others.is_done()
}

// Whether a word in this column asks for a part.
fn asks_for(word: &[u8], column: Part, part: Part) -> bool
    ensures { result ≡ (not (is_any word.now) && is_part (part_of column) (part_of part)) }
{
    !is_any(word) && is_part(column, part)
}

// Whether the words behind the id in a thread's line ask for a part: `*` asks for nothing, and
// neither does `..` for what is left.
fn columns_read(mut asked: Words<'_>, columns: &[Part], part: Part) -> bool
    ensures { result ≡ columns_read asked.entry (map part_of columns.now) (part_of part) }
{
    for column in columns {
        let Some(word) = asked.next() else {
            return false;
        };
        if are_all(word, &asked) {
            return false;
        }
        if asks_for(word, *column, part) {
            return true;
        }
    }
    !are_rest(asked) && is_part(Part::Registers, part)
}

// Whether a line may be that of a thread, which is spelled so, and asks for a part of it.
fn thread_read(line: &[u8], id: GlobalId, spelled: &[u8], part: Part) -> bool
    requires { spelled.now ≡ thread_word id }
    ensures { result ≡ thread_read (words_in line.now) id (part_of part) }
{
    let mut words = Words::of(line);
    let Some(first) = words.next() else {
        return false;
    };
    let Some(second) = words.next() else {
        return false;
    };
    fits_word(first, b"thread") && fits_word(second, spelled) && columns_read(words, COLUMNS, part)
}

// Whether a word asks for any send of the thread that is spelled so.
fn is_send_of(asked: &[u8], spelled: &[u8]) -> bool
    ensures { result ≡ is_send_of (thread_asked asked.now) (thread_of spelled.now) }
{
    match (thread_asked(asked), thread(spelled)) {
        (Some(asked), Some(named)) => named == asked,
        _ => false,
    }
}

// Whether a word may name a send of a thread, which is spelled so.
fn may_name(asked: &[u8], id: GlobalId, spelled: &[u8]) -> bool
    requires { spelled.now ≡ thread_word id }
    ensures { result ≡ may_name asked.now id }
{
    is_any(asked) || has_number(asked) || is_send_of(asked, spelled)
}

// Whether a line may be that of a send of a thread, which is spelled so, and this part is a send.
fn send_read(line: &[u8], id: GlobalId, spelled: &[u8], part: Part) -> bool
    requires { spelled.now ≡ thread_word id }
    ensures { result ≡ send_read (words_in line.now) id (part_of part) }
{
    let mut words = Words::of(line);
    let Some(first) = words.next() else {
        return false;
    };
    let Some(second) = words.next() else {
        return is_rest(first) && is_part(Part::Send, part);
    };
    fits_word(first, b"waiting")
        && (are_all(second, &words) || may_name(second, id, spelled))
        && is_part(Part::Send, part)
}

// Whether a line reads a part of a thread, which is spelled so.
fn line_reads(line: &[u8], id: GlobalId, spelled: &[u8], part: Part) -> bool
    requires { spelled.now ≡ thread_word id }
    ensures { result ≡ line_reads line.now id (part_of part) }
{
    thread_read(line, id, spelled, part) || send_read(line, id, spelled, part)
}

// Whether some line reads a part of a thread.
fn is_read(lines: &[&[u8]], id: GlobalId, spelled: &[u8], part: Part) -> bool
    requires { spelled.now ≡ thread_word id }
    ensures { result ≡ reads_of (map (λ line. line.now) lines.now) id (part_of part) }
{
    for line in lines {
        if line_reads(line, id, spelled, part) {
            return true;
        }
    }
    false
}

// Which parts of a thread the lines of a condition read.
fn parts_of(alloc: Global, condition: &Condition<'_>, id: GlobalId) -> Result<Parts, NoMemory>
    ensures { IfOk result (λ parts. parts ≡ parts_of (reads_of condition.now id)) }
{
    let mut spelled = String::new(alloc);
    push_thread(&mut spelled, id)?;
    // Without the space before it.
    let spelled = &spelled.as_bytes()[1..];
    let lines = condition.lines();
    Ok(Parts {
        state: is_read(lines, id, spelled, Part::State),
        code: is_read(lines, id, spelled, Part::Code),
        senders: is_read(lines, id, spelled, Part::Senders),
        registers: is_read(lines, id, spelled, Part::Registers),
        send: is_read(lines, id, spelled, Part::Send),
    })
}

/// Which parts of each thread the lines of a condition read, in order of declaration.
pub(crate) fn parts_read(
    alloc: Global,
    machine: &Machine,
    condition: &Condition<'_>,
) -> Result<Vec<Parts>, NoMemory>
    ensures { IfOk result (λ parts. parts.items ≡ parts_read machine.now condition.now) }
{
    let mut parts = Vec::new(alloc);
    for declared in machine.threads() {
        parts.push(parts_of(alloc, condition, declared.id())?)?;
    }
    Ok(parts)
}
