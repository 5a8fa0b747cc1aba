//! Lines, word by word.
ghost use Rattle.std.specs.Prelude.{◌≡◌, ◌∷◌, find};
ghost use Rattle.std.specs.List.{list_all};
ghost use Rattle.std.specs.Option.{option_copied};
ghost use Rattle.std.specs.Str.{bytes_eq};
ghost use Rattle.l4_lines.specs.Lines.{are_rest, asks_for_number, asks_of_deleted, fits_line};
ghost use Rattle.l4_lines.specs.Lines.{fits_word, has_line, has_number, is_any, is_digit};
ghost use Rattle.l4_lines.specs.Lines.{is_numeral, is_rest, is_send_of, line_fault, lines_of};
ghost use Rattle.l4_lines.specs.Lines.{may_begin, thread_asked, thread_named};

use l4_types::ids::GlobalId;
use l4_words::lines::{find_byte, split_line};
use l4_words::threads::thread;
use l4_words::words::Words;

/// Why a line may not be asked for.
#[derive(Clone, Copy, Debug, PartialEq, Eq)]
pub enum LineFault {
    /// No line of a report begins so.
    Unknown,
    /// It asks for more than the state of a deleted thread. Runs that end in one state may differ
    /// in its registers.
    Deleted,
    /// It asks for the number of a send. Runs that end in one state may differ in it.
    Number,
}

/// Why a line may not be asked for. None where it may be.
pub fn line_fault(asked: &str) -> Option<LineFault>
    ensures { result ≡ line_fault asked.now }
{
    fault_of_line(asked.as_bytes())
}

/// The same of the bytes of a line.
pub fn fault_of_line(asked: &[u8]) -> Option<LineFault>
    ensures { result ≡ line_fault asked.now }
{
    let mut words = Words::of(asked);
    let Some(first) = words.next() else {
        return Some(LineFault::Unknown);
    };
    if !may_begin(first) {
        return Some(LineFault::Unknown);
    }
    let second = words.next()?;
    if asks_of_deleted(first, words) {
        return Some(LineFault::Deleted);
    }
    if asks_for_number(first, second) {
        return Some(LineFault::Number);
    }
    None
}

// Whether a line of a report may begin with a word.
fn may_begin(first: &[u8]) -> bool
    ensures { result ≡ may_begin first.now }
{
    is_any(first) || is(first, b"thread") || is(first, b"waiting") || is(first, b"ending")
}

// Whether a line with this word first, and these behind its second, may be that of a deleted
// thread, and asks for more than its state.
fn asks_of_deleted(first: &[u8], mut others: Words<'_>) -> bool
    ensures { result ≡ asks_of_deleted first.now others.entry }
{
    let Some(state) = others.next() else {
        return false;
    };
    fits_word(first, b"thread") && fits_word(state, b"deleted") && !are_rest(others)
}

// Whether a line with these words first may be that of a send that waits, and asks for its number.
fn asks_for_number(first: &[u8], second: &[u8]) -> bool
    ensures { result ≡ asks_for_number first.now second.now }
{
    fits_word(first, b"waiting") && has_number(second)
}

/// Whether the words that are left stand for any words.
pub fn are_rest(asked: Words<'_>) -> bool
    ensures { result ≡ are_rest asked.entry }
{
    match asked.one() {
        Some(word) => is_rest(word),
        None => false,
    }
}

/// Whether a word that is asked for stands for the words that are left.
pub fn is_rest(asked: &[u8]) -> bool
    ensures { result ≡ is_rest asked.now }
{
    matches!(asked, b"..")
}

/// Whether a word that is asked for stands for any word.
pub fn is_any(asked: &[u8]) -> bool
    ensures { result ≡ is_any asked.now }
{
    matches!(asked, b"*")
}

fn is(word: &[u8], other: &[u8]) -> bool
    ensures { result ≡ bytes_eq word.now other.now }
{
    word == other
}

/// The thread of which any send is asked for.
#[tactic(auto, using(crate::proofs::Sends::at_hash, crate::proofs::Sends::without_hash))]
pub fn thread_asked(asked: &[u8]) -> Option<GlobalId>
    ensures { result ≡ thread_asked asked.now }
{
    let hash = find_byte(b'#', asked)?;
    if !is_any(&asked[hash + 1..]) {
        return None;
    }
    thread(&asked[..hash])
}

fn is_digit(byte: u8) -> bool
    ensures { result ≡ is_digit byte }
{
    b'0' <= byte && byte <= b'9'
}

fn are_digits(bytes: &[u8]) -> bool
    ensures { result ≡ list_all is_digit bytes.now }
{
    bytes.iter().all(|byte| is_digit(*byte))
}

// Whether a word is a number, however long.
fn is_numeral(word: &[u8]) -> bool
    ensures { result ≡ is_numeral word.now }
{
    !word.is_empty() && are_digits(word)
}

/// Whether what stands behind the `#` of a word is a number.
#[tactic(auto, using(crate::proofs::Sends::number_at, crate::proofs::Sends::no_number))]
pub fn has_number(word: &[u8]) -> bool
    ensures { result ≡ has_number word.now }
{
    match find_byte(b'#', word) {
        Some(hash) => is_numeral(&word[hash + 1..]),
        None => false,
    }
}

// The thread of which a word names a send, whatever its number.
#[tactic(auto, using(crate::proofs::Sends::named_at, crate::proofs::Sends::none_named))]
fn thread_named(word: &[u8]) -> Option<GlobalId>
    ensures { result ≡ thread_named word.now }
{
    let hash = find_byte(b'#', word)?;
    if !is_numeral(&word[hash + 1..]) {
        return None;
    }
    thread(&word[..hash])
}

// Whether a word names a send of the thread of which any send is asked for.
fn is_send_of(asked: &[u8], word: &[u8]) -> bool
    ensures { result ≡ is_send_of (thread_asked asked.now) (thread_named word.now) }
{
    match (thread_asked(asked), thread_named(word)) {
        (Some(asked), Some(named)) => named == asked,
        _ => false,
    }
}

/// Whether a word is one that is asked for.
pub fn fits_word(asked: &[u8], word: &[u8]) -> bool
    ensures { result ≡ fits_word asked.now word.now }
{
    is_any(asked) || is(asked, word) || is_send_of(asked, word)
}

/// Whether a line is one that is asked for.
pub fn fits_line(asked: &[u8], line: &[u8]) -> bool
    ensures { result ≡ fits_line asked.now line.now }
{
    let mut asked_words = Words::of(asked);
    let mut words = Words::of(line);
    'words: while let Some(asked_word) = asked_words.next() {
        if is_rest(asked_word) && asked_words.is_done() {
            return true;
        }
        let Some(word) = words.next() else {
            return false;
        };
        if !fits_word(asked_word, word) {
            return false;
        }
    }
    words.is_done()
}

/// The first line of a text that is asked for. What stands behind the last line end is no line.
pub fn find_line<'t>(asked: &[u8], text: &'t [u8]) -> Option<&'t [u8]>
    ensures { option_copied result ≡ find (fits_line asked.now) (lines_of text.now) }
{
    let mut left = text;
    'lines: while let Some((line, rest)) = split_line(left) {
        if fits_line(asked, line) {
            return Some(line);
        }
        left = rest;
    }
    None
}

/// Whether a text has a line that is asked for.
pub fn has_line(asked: &str, text: &[u8]) -> bool
    ensures { result ≡ has_line asked.now text.now }
{
    find_line(asked.as_bytes(), text).is_some()
}
