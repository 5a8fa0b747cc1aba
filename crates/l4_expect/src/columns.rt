//! The words that the lines of reports have in their places.
ghost use Rattle.std.specs.Prelude.{◌≡◌};
ghost use Rattle.std.specs.Str.{bytes_eq};
ghost use Rattle.l4_model.specs.Words.{last_register};
ghost use Rattle.l4_words.specs.Words.{words_in};
ghost use Rattle.l4_expect.specs.Columns.{are_more, are_none, are_registers, fits_columns};
ghost use Rattle.l4_expect.specs.Columns.{is_code, is_destination, is_ending, is_last_register};
ghost use Rattle.l4_expect.specs.Columns.{is_local, is_nil, is_of, is_register, is_state, is_tag};
ghost use Rattle.l4_expect.specs.Columns.{may_be_line, may_be_told, may_stand};

use l4_lines::lines::{fits_word, is_any, is_rest, thread_asked};
use l4_types::ids::{Kind, ThreadId};
use l4_types::registers::MESSAGE_REGISTERS;
use l4_types::tags::MsgTag;
use l4_words::names::name;
use l4_words::numbers::{decimal, hexadecimal};
use l4_words::threads::thread;
use l4_words::words::Words;

/// What a word of a line tells.
#[derive(Clone, Copy, Debug)]
pub(crate) enum Column {
    /// The kind of the line, which is judged separately.
    First,
    /// A thread.
    Thread,
    /// Its state.
    State,
    /// Its ErrorCode, in decimal.
    Code,
    /// The sender that it received from, or nilthread.
    Sender,
    /// Any id.
    Id,
    /// The word of MR0, in hexadecimal.
    Tag,
    /// The name of a send, or any send of a thread.
    Send,
    /// An id that a send may go to.
    Destination,
    /// How a run ended.
    Ending,
}

// The columns that each line of its kind has.
const OF_THREAD: &[Column] = &[
    Column::First,
    Column::Thread,
    Column::State,
    Column::Code,
    Column::Sender,
    Column::Id,
    Column::Tag,
];

const OF_SEND: &[Column] = &[Column::First, Column::Send, Column::Destination];

const OF_ENDING: &[Column] = &[Column::First, Column::Ending];

fn is(word: &[u8], other: &[u8]) -> bool
    ensures { result ≡ bytes_eq word.now other.now }
{
    word == other
}

fn is_state(word: &[u8]) -> bool
    ensures { result ≡ is_state word.now }
{
    is(word, b"ready")
        || is(word, b"sending")
        || is(word, b"receiving")
        || is(word, b"ordering")
        || is(word, b"ended")
        || is(word, b"deleted")
}

fn is_ending(word: &[u8]) -> bool
    ensures { result ≡ is_ending word.now }
{
    is(word, b"quiet") || is(word, b"spent")
}

// Whether a word is an ErrorCode: 0, or that of an ipc that failed or of an order that was not
// admitted.
fn is_code(word: &[u8]) -> bool
    ensures { result ≡ is_code word.now }
{
    matches!(decimal(word), Some(0 | 2..=7))
}

// Whether a word is a local id.
fn is_local(word: &[u8]) -> bool
    ensures { result ≡ is_local word.now }
{
    match word {
        [b'#', digits @ ..] => match hexadecimal(digits) {
            Some(local) => ThreadId::from_raw(local).kind() == Kind::Local,
            None => false,
        },
        _ => false,
    }
}

fn is_nil(word: &[u8]) -> bool
    ensures { result ≡ is_nil word.now }
{
    is(word, b"nil")
}

// Whether a word is an id that a send may go to.
fn is_destination(word: &[u8]) -> bool
    ensures { result ≡ is_destination word.now }
{
    is(word, b"any") || is(word, b"anylocal") || is_local(word) || thread(word).is_some()
}

// Whether a word is one of MR0, which has no typed items.
fn is_tag(word: &[u8]) -> bool
    ensures { result ≡ is_tag word.now }
{
    match hexadecimal(word) {
        Some(tag) => MsgTag::from_raw(tag).is_ok(),
        None => false,
    }
}

fn is_of(column: Column, word: &[u8]) -> bool
    ensures { result ≡ is_of column word.now }
{
    match column {
        Column::First => true,
        Column::Thread => thread(word).is_some(),
        Column::State => is_state(word),
        Column::Code => is_code(word),
        Column::Sender => is_nil(word) || thread(word).is_some(),
        Column::Id => is_nil(word) || is_destination(word),
        Column::Tag => is_tag(word),
        Column::Send => name(word).is_some() || thread_asked(word).is_some(),
        Column::Destination => is_destination(word),
        Column::Ending => is_ending(word),
    }
}

fn may_stand(column: Column, word: &[u8]) -> bool
    ensures { result ≡ may_stand column word.now }
{
    is_any(word) || is_of(column, word)
}

fn is_register(word: &[u8]) -> bool
    ensures { result ≡ is_register word.now }
{
    is_any(word) || hexadecimal(word).is_some()
}

// Whether a word may be the last of a line of a thread, behind that of MR0.
fn is_last_register(word: &[u8]) -> bool
    ensures { result ≡ is_last_register word.now }
{
    is_any(word) || matches!(hexadecimal(word), Some(1..))
}

// Whether words may stand behind that of MR0: those of the registers up to the last that is not 0.
fn are_registers(mut words: Words<'_>) -> bool
    ensures { result ≡ are_registers last_register words.entry }
{
    let mut most = MESSAGE_REGISTERS - 1;
    'words: while let Some(word) = words.next() {
        if words.is_done() {
            return is_rest(word) || (most > 0 && is_last_register(word));
        }
        if most == 0 || !is_register(word) {
            return false;
        }
        most -= 1;
    }
    true
}

fn are_none(mut words: Words<'_>) -> bool
    ensures { result ≡ are_none words.entry }
{
    match words.next() {
        Some(word) => is_rest(word) && words.is_done(),
        None => true,
    }
}

fn are_more(has_registers: bool, words: Words<'_>) -> bool
    ensures { result ≡ are_more has_registers words.entry }
{
    if has_registers {
        are_registers(words)
    } else {
        are_none(words)
    }
}

// Whether each word of a line may stand in its column, and none is missing.
fn fits_columns(has_registers: bool, columns: &[Column], asked: &[u8]) -> bool
    ensures { result ≡ fits_columns has_registers columns.now (words_in asked.now) }
{
    let mut words = Words::of(asked);
    for column in columns {
        let Some(word) = words.next() else {
            return false;
        };
        if is_rest(word) && words.is_done() {
            return true;
        }
        if !may_stand(*column, word) {
            return false;
        }
    }
    are_more(has_registers, words)
}

/// Whether a line that is asked for may be one of a report: of a thread, a send or the ending.
pub(crate) fn may_be_line(asked: &[u8]) -> bool
    ensures { result ≡ may_be_line (words_in asked.now) }
{
    let Some(first) = Words::of(asked).next() else {
        return false;
    };
    fits_word(first, b"thread") && fits_columns(true, OF_THREAD, asked)
        || fits_word(first, b"waiting") && fits_columns(false, OF_SEND, asked)
        || fits_word(first, b"ending") && fits_columns(false, OF_ENDING, asked)
}

/// Whether a line that is asked for may be one of a world: of a thread or a send.
pub(crate) fn may_be_told(asked: &[u8]) -> bool
    ensures { result ≡ may_be_told (words_in asked.now) }
{
    let Some(first) = Words::of(asked).next() else {
        return false;
    };
    fits_word(first, b"thread") && fits_columns(true, OF_THREAD, asked)
        || fits_word(first, b"waiting") && fits_columns(false, OF_SEND, asked)
}
