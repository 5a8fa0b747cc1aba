//! The pieces of a text, each appended to what stands there.
ghost use Rattle.std.specs.Prelude.{◌≡◌, ◌≤◌, ◌-◌, ◌++◌, OnOk, length, codes, decimal, replicate};
ghost use Rattle.std.specs.Char.{encode_utf8};
ghost use Rattle.std.specs.List.{repeat};
ghost use Rattle.l4_words.specs.Threads.{id_word, thread_word};
ghost use Rattle.l4_chart.specs.Texts.{right};

use itoa::Buffer;
use l4_types::errors::NoMemory;
use l4_types::ids::{GlobalId, ThreadId};
use l4_words::spelling;

pub(crate) fn push_text(out: &mut Vec<u8>, text: &str) -> Result<(), NoMemory>
    ensures { OnOk result (out.new.items ≡ out.old.items ++ text.now) }
{
    out.extend_from_slice(text.as_bytes())?;
    Ok(())
}

pub(crate) fn push_char(out: &mut Vec<u8>, character: char) -> Result<(), NoMemory>
    ensures { OnOk result (out.new.items ≡ out.old.items ++ encode_utf8 character) }
{
    let mut buffer = [0; 4];
    push_text(out, character.encode_utf8(&mut buffer))
}

// Appends a character `count` times.
#[tactic(auto, using(crate::proofs::Repeated::repeat_more))]
pub(crate) fn push_chars(out: &mut Vec<u8>, character: char, count: usize) -> Result<(), NoMemory>
    ensures { OnOk result (out.new.items ≡ out.old.items ++ repeat count (encode_utf8 character)) }
{
    for _done in 0..count {
        push_char(out, character)?;
    }
    Ok(())
}

pub(crate) fn push_spaces(out: &mut Vec<u8>, count: usize) -> Result<(), NoMemory>
    ensures { OnOk result (out.new.items ≡ out.old.items ++ replicate count 32) }
{
    for _done in 0..count {
        out.push(b' ')?;
    }
    Ok(())
}

pub(crate) fn push_number(out: &mut Vec<u8>, number: u64) -> Result<(), NoMemory>
    ensures { OnOk result (out.new.items ≡ out.old.items ++ decimal number) }
{
    let mut buffer = Buffer::new();
    push_text(out, buffer.format(number))
}

pub(crate) fn push_thread(out: &mut Vec<u8>, thread: GlobalId) -> Result<(), NoMemory>
    ensures { OnOk result (out.new.items ≡ out.old.items ++ thread_word thread) }
{
    push_number(out, u64::from(thread.number()))?;
    push_text(out, ".")?;
    push_number(out, u64::from(thread.version()))
}

// Appends a space and an id as a report has it.
pub(crate) fn push_id(out: &mut Vec<u8>, id: ThreadId) -> Result<(), NoMemory>
    ensures { OnOk result (out.new.items ≡ out.old.items ++ codes " " ++ id_word id) }
{
    let mut word = String::new(*out.allocator());
    spelling::push_id(&mut word, id)?;
    push_text(out, word.as_str())
}

/// How many digits a number has.
pub(crate) fn number_width(number: u64) -> usize
    ensures value { result ≡ length (decimal number) }
    ensures few { result ≤ 40 }
{
    let mut buffer = Buffer::new();
    buffer.format(number).len()
}

/// How many characters the id of a thread takes.
pub(crate) fn thread_width(thread: GlobalId) -> usize
    ensures value { result ≡ length (thread_word thread) }
    ensures few { result ≤ 81 }
{
    number_width(u64::from(thread.number())) + 1 + number_width(u64::from(thread.version()))
}

// Appends a text at the right of `width` columns. A longer text takes more columns.
pub(crate) fn push_right_text(out: &mut Vec<u8>, width: usize, text: &str) -> Result<(), NoMemory>
    ensures { OnOk result (out.new.items ≡ out.old.items ++ right width text.now) }
{
    push_spaces(out, width.saturating_sub(text.len()))?;
    push_text(out, text)
}

pub(crate) fn push_right_number(
    out: &mut Vec<u8>,
    width: usize,
    number: u64,
) -> Result<(), NoMemory>
    ensures { OnOk result (out.new.items ≡ out.old.items ++ right width (decimal number)) }
{
    let mut buffer = Buffer::new();
    push_right_text(out, width, buffer.format(number))
}

pub(crate) fn push_right_thread(
    out: &mut Vec<u8>,
    width: usize,
    thread: GlobalId,
) -> Result<(), NoMemory>
    ensures { OnOk result (out.new.items ≡ out.old.items ++ right width (thread_word thread)) }
{
    push_spaces(out, width.saturating_sub(thread_width(thread)))?;
    push_thread(out, thread)
}
