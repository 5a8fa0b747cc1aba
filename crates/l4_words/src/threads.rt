//! Threads as words spell them.
ghost use Rattle.std.specs.Prelude.{◌≡◌, ◌≤◌, IfSome, Some, length, take};
ghost use Rattle.l4_words.specs.Threads.{thread_of_numbers, thread_between, thread_of};

use crate::lines::find_byte;
use crate::numbers::{decimal, decimal_in_front};
use l4_types::ids::GlobalId;

/// The thread of these numbers, where they make a global id.
#[inline(always)]
fn thread_of_numbers(number: u64, version: u64) -> Option<GlobalId>
    ensures { result ≡ thread_of_numbers number version }
{
    GlobalId::new(u32::try_from(number).ok()?, u32::try_from(version).ok()?)
}

/// The thread of a decimal number and a decimal version.
fn thread_between(number: &[u8], version: &[u8]) -> Option<GlobalId>
    ensures { result ≡ thread_between number.now version.now }
{
    let number = decimal(number)?;
    let version = decimal(version)?;
    thread_of_numbers(number, version)
}

/// The thread that a text begins with, and how many bytes spell it. None where a number of it has
/// more than 16 digits, too.
#[inline(always)]
pub(crate) fn thread_in_front(text: &[u8]) -> Option<(GlobalId, usize)>
    ensures within { IfSome result (λ found. found.1 ≤ length text.now) }
    ensures value { IfSome result (λ found. thread_of (take found.1 text.now) ≡ Some found.0) }
{
    let (number, dot) = decimal_in_front(text)?;
    if dot == text.len() || text[dot] != b'.' {
        return None;
    }
    let (version, digits) = decimal_in_front(&text[dot + 1..])?;
    let thread = thread_of_numbers(number, version)?;
    Some((thread, dot + 1 + digits))
}

/// The thread of a word `N.V`, its number and its version in decimal (manual: ThreadId). None where
/// they make no global id.
pub fn thread(word: &[u8]) -> Option<GlobalId>
    ensures { result ≡ thread_of word.now }
{
    let dot = find_byte(b'.', word)?;
    thread_between(&word[..dot], &word[dot + 1..])
}
