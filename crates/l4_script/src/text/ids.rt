//! Thread ids as machine texts of a format spell them.
ghost use Rattle.std.specs.Prelude.{◌≡◌};
ghost use Rattle.l4_model.specs.Words.{GlobalThread};
ghost use Rattle.l4_types.specs.Inner.FormatView.{format_of};
ghost use Rattle.l4_script.specs.Ids.{id_digits, raw_id_of, thread_in, spelled_id_of, id_of};

use l4_types::formats::Format;
use l4_types::ids::{GlobalId, ThreadId};
use l4_words::numbers::padded_hexadecimal;
use l4_words::threads::thread;

const NIL: &[u8] = b"nil";

const ANY: &[u8] = b"any";

const ANY_LOCAL: &[u8] = b"anylocal";

/// How many hexadecimal digits the word of an id has.
fn id_digits(format: Format) -> usize
    ensures { result ≡ id_digits (format_of format) }
{
    match format {
        Format::W64 => 16,
        Format::W32 => 8,
    }
}

/// The id whose word these hexadecimal digits spell, exactly as many as the format has.
fn raw_id(format: Format, digits: &[u8]) -> Option<ThreadId>
    ensures { result ≡ raw_id_of (format_of format) digits.now }
{
    if digits.len() != id_digits(format) {
        return None;
    }
    let word = padded_hexadecimal(digits)?;
    ThreadId::from_raw_in(format, word)
}

/// The thread of a word `N.V`. None where the format has no word for it.
#[tactic(auto, unfolding(crate::specs::Ids::thread_in))]
pub fn thread_in(format: Format, word: &[u8]) -> Option<GlobalId>
    ensures { result ≡ thread_in (format_of format) word.now }
{
    let thread = thread(word)?;
    if thread.is_in(format) {
        Some(thread)
    } else {
        None
    }
}

/// An id by its numbers: `#` and its word, or `N.V`.
#[tactic(auto, unfolding(crate::specs::Ids::spelled_id_of))]
fn spelled_id(format: Format, word: &[u8]) -> Option<ThreadId>
    ensures { result ≡ spelled_id_of (format_of format) word.now }
{
    match word.strip_prefix(b"#") {
        Some(digits) => raw_id(format, digits),
        None => thread_in(format, word).map(ThreadId::from),
    }
}

/// An id: `nil`, `any`, `anylocal`, or spelled by numbers. None if the word spells no id of this
/// format.
#[tactic(auto, unfolding(crate::specs::Ids::id_of))]
pub fn id(format: Format, word: &[u8]) -> Option<ThreadId>
    ensures { result ≡ id_of (format_of format) word.now }
{
    if word == NIL {
        Some(ThreadId::NIL)
    } else if word == ANY {
        Some(ThreadId::ANY)
    } else if word == ANY_LOCAL {
        Some(ThreadId::ANY_LOCAL)
    } else {
        spelled_id(format, word)
    }
}
