//! The names of sends as words spell them.
ghost use Rattle.std.specs.Prelude.{◌≡◌, ◌≤◌, IfSome, Some, length, take};
ghost use Rattle.l4_words.specs.Names.{name_between, name_of};

use crate::lines::find_byte;
use crate::numbers::{decimal, decimal_in_front};
use crate::threads::{thread, thread_in_front};
use l4_types::steps::Name;

/// The send of a thread and a decimal number.
fn name_between(thread_word: &[u8], k: &[u8]) -> Option<Name>
    ensures { result ≡ name_between thread_word.now k.now }
{
    let thread = thread(thread_word)?;
    let k = decimal(k)?;
    Name::new(thread, k)
}

/// The name of a send that a text begins with, and how many bytes spell it. None where a number of
/// it has more than 16 digits, too.
#[inline(always)]
pub(crate) fn name_in_front(text: &[u8]) -> Option<(Name, usize)>
    ensures within { IfSome result (λ found. found.1 ≤ length text.now) }
    ensures value { IfSome result (λ found. name_of (take found.1 text.now) ≡ Some found.0) }
{
    let (thread, hash) = thread_in_front(text)?;
    if hash == text.len() || text[hash] != b'#' {
        return None;
    }
    let (k, digits) = decimal_in_front(&text[hash + 1..])?;
    let send = Name::new(thread, k)?;
    Some((send, hash + 1 + digits))
}

/// The name of a send, `N.V#K`.
pub fn name(word: &[u8]) -> Option<Name>
    ensures { result ≡ name_of word.now }
{
    let hash = find_byte(b'#', word)?;
    name_between(&word[..hash], &word[hash + 1..])
}
