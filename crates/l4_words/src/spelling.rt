//! How the words of a line are spelled, each with the space before it.
ghost use Rattle.std.specs.Prelude.{◌≡◌, true, ◌++◌, codes, flat_map, OnOk};
ghost use Rattle.std.specs.List.{list_all};
ghost use Rattle.std.specs.String.{string_bytes};
ghost use Rattle.l4_model.specs.Words.{global_id, is_global};
ghost use Rattle.l4_words.specs.Numbers.{hexadecimal, is_word};
ghost use Rattle.l4_words.specs.Threads.{id_word, thread_word};
ghost use Rattle.l4_words.specs.Names.{name_word, is_name};

use l4_types::ids::{GlobalId, Kind, ThreadId};
use l4_types::steps::Name;
use std::alloc::AllocError;

/// Appends a space and a word in hexadecimal: in lower case, with no prefix and no leading zero.
pub fn push_word(line: &mut String, word: u64) -> Result<(), AllocError>
    ensures word { OnOk result (string_bytes line.new ≡
        string_bytes line.old ++ codes " " ++ hexadecimal word) }
    ensures spelled { is_word word ≡ true }
{
    write!(line, " {word:x}")
}

/// Appends a space and each of these words, as `push_word` does it.
pub fn push_words(line: &mut String, words: &[u64]) -> Result<(), AllocError>
    ensures words { OnOk result (string_bytes line.new ≡
        string_bytes line.old ++ flat_map (λ word. codes " " ++ hexadecimal word) words.now) }
    ensures spelled { OnOk result (list_all is_word words.now ≡ true) }
{
    for word in words {
        push_word(line, *word)?;
    }
    Ok(())
}

/// Appends a space and a thread, `N.V`: its number and its version in decimal.
pub fn push_thread(line: &mut String, thread: GlobalId) -> Result<(), AllocError>
    ensures word { OnOk result (string_bytes line.new ≡
        string_bytes line.old ++ codes " " ++ thread_word thread) }
    ensures spelled { is_global thread ≡ true }
{
    push_numbers(line, thread.number(), thread.version())
}

/// Appends a space and the thread of this number and version, as `push_thread` does it.
pub fn push_numbers(line: &mut String, number: u32, version: u32) -> Result<(), AllocError>
    ensures { OnOk result (string_bytes line.new ≡ string_bytes line.old ++ codes " " ++
        thread_word (global_id number version)) }
{
    write!(line, " {number}.{version}")
}

/// Appends a space and an id: `nil`, `any`, `anylocal`, a local id in hexadecimal behind `#`, or a
/// thread as `push_thread` does it.
pub fn push_id(line: &mut String, id: ThreadId) -> Result<(), AllocError>
    ensures { OnOk result (string_bytes line.new ≡
        string_bytes line.old ++ codes " " ++ id_word id) }
{
    match id.kind() {
        Kind::Nil => line.push_str(" nil"),
        Kind::Any => line.push_str(" any"),
        Kind::AnyLocal => line.push_str(" anylocal"),
        Kind::Local => write!(line, " #{:x}", id.raw()),
        Kind::Global { number, version } => push_numbers(line, number, version),
    }
}

/// Appends a space and the name of a send, `N.V#K`.
#[tactic(auto, using(crate::proofs::ReadNames::spelled_name))]
pub fn push_name(line: &mut String, name: Name) -> Result<(), AllocError>
    ensures word { OnOk result (string_bytes line.new ≡
        string_bytes line.old ++ codes " " ++ name_word name) }
    ensures spelled { OnOk result (is_name name ≡ true) }
{
    push_thread(line, name.thread())?;
    write!(line, "#{}", name.k())
}
