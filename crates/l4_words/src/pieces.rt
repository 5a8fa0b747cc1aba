//! Writes the words of a line from its last to its first, each with the space before it.
ghost use Rattle.std.specs.Prelude.{◌≡◌, ◌<◌, ◌≤◌, ◌+◌, ◌*◌, true, ◌++◌, codes, decimal, flat_map};
ghost use Rattle.std.specs.Prelude.{length, drop};
ghost use Rattle.std.specs.List.{list_all};
ghost use Rattle.l4_model.specs.Words.{is_global};
ghost use Rattle.l4_words.specs.Numbers.{hexadecimal, is_word};
ghost use Rattle.l4_words.specs.Threads.{thread_word};
ghost use Rattle.l4_words.specs.Names.{name_word, is_name};

use crate::digits::{write_byte, write_hexadecimal};
use itoa::write_digits;
use l4_types::ids::GlobalId;
use l4_types::steps::Name;

// The most bytes of a number below 2^32 in decimal.
const HALF_BYTES: usize = 10;

/// The most bytes of a space and a number below 2^64 in decimal.
pub const NUMBER_BYTES: usize = 21;

/// The most bytes of a space and a thread.
pub const THREAD_BYTES: usize = 22;

/// The most bytes of a space and the name of a send.
pub const NAME_BYTES: usize = 43;

/// The most bytes of a space and a word in hexadecimal.
pub const WORD_BYTES: usize = 17;

// Writes half a thread id in decimal just before `end` in the line. Returns where it starts. Inlined
// for numbers of one digit, which most versions are.
#[inline(always)]
#[tactic(auto, using(crate::proofs::Lengths::one_digit))]
fn write_half(half: u32, line: &mut [u8], end: usize) -> usize
    requires room { HALF_BYTES ≤ end }
    requires within { end ≤ length line.old }
    ensures room { end ≤ result + HALF_BYTES }
    ensures within { result ≤ end }
    ensures written { drop result line.new ≡ decimal half ++ drop end line.old }
{
    if half < 10 {
        return write_byte(b'0' + half as u8, line, end);
    }
    write_digits_of_half(half, line, end)
}

// The same, whatever the number.
#[inline(never)]
#[tactic(auto, using(crate::proofs::Lengths::at_most_10))]
fn write_digits_of_half(half: u32, line: &mut [u8], end: usize) -> usize
    requires room { HALF_BYTES ≤ end }
    requires within { end ≤ length line.old }
    ensures room { end ≤ result + HALF_BYTES }
    ensures within { result ≤ end }
    ensures written { drop result line.new ≡ decimal half ++ drop end line.old }
{
    write_digits(u64::from(half), line, end)
}

/// Writes a space and a number in decimal just before `end` in the line. Returns where they start.
#[tactic(auto, using(crate::proofs::Lengths::at_most_20))]
pub fn write_number(number: u64, line: &mut [u8], end: usize) -> usize
    requires room { NUMBER_BYTES ≤ end }
    requires within { end ≤ length line.old }
    ensures room { end ≤ result + NUMBER_BYTES }
    ensures within { result ≤ end }
    ensures written { drop result line.new ≡ codes " " ++ decimal number ++ drop end line.old }
{
    let digits = write_digits(number, line, end);
    write_byte(b' ', line, digits)
}

/// Writes a space and a thread, `N.V`, its number and its version in decimal, just before `end` in
/// the line. Returns where they start.
#[inline(always)]
pub fn write_thread(thread: GlobalId, line: &mut [u8], end: usize) -> usize
    requires room { THREAD_BYTES ≤ end }
    requires within { end ≤ length line.old }
    ensures room { end ≤ result + THREAD_BYTES }
    ensures within { result ≤ end }
    ensures written { drop result line.new ≡ codes " " ++ thread_word thread ++ drop end line.old }
    ensures spelled { is_global thread ≡ true }
{
    let version = write_half(thread.version(), line, end);
    let dot = write_byte(b'.', line, version);
    let number = write_half(thread.number(), line, dot);
    write_byte(b' ', line, number)
}

/// Writes a space and the name of a send, `N.V#K`, just before `end` in the line. Returns where
/// they start. Inlined: it takes the name apart, and a name that is passed on whole lies in memory.
#[inline(always)]
pub fn write_name(name: Name, line: &mut [u8], end: usize) -> usize
    requires room { NAME_BYTES ≤ end }
    requires within { end ≤ length line.old }
    ensures room { end ≤ result + NAME_BYTES }
    ensures within { result ≤ end }
    ensures written { drop result line.new ≡ codes " " ++ name_word name ++ drop end line.old }
    ensures spelled { is_name name ≡ true }
{
    write_send(name.thread(), name.k(), line, end)
}

// The same for the k-th send of a thread.
#[tactic(auto, using(crate::proofs::Lengths::at_most_20))]
fn write_send(thread: GlobalId, k: u64, line: &mut [u8], end: usize) -> usize
    requires positive { 0 < k }
    requires room { NAME_BYTES ≤ end }
    requires within { end ≤ length line.old }
    ensures room { end ≤ result + NAME_BYTES }
    ensures within { result ≤ end }
    ensures written { drop result line.new ≡
        codes " " ++ name_word (record { thread = thread; k = k }) ++ drop end line.old }
    ensures spelled { is_name (record { thread = thread; k = k }) ≡ true }
{
    let hash = write_send_number(k, line, end);
    write_thread(thread, line, hash)
}

/// Writes `#K`, the number of a send in decimal, just before `end` in the line. Returns where it
/// starts.
#[tactic(auto, using(crate::proofs::Lengths::at_most_20))]
pub fn write_send_number(k: u64, line: &mut [u8], end: usize) -> usize
    requires room { NUMBER_BYTES ≤ end }
    requires within { end ≤ length line.old }
    ensures room { end ≤ result + NUMBER_BYTES }
    ensures within { result ≤ end }
    ensures written { drop result line.new ≡ codes "#" ++ decimal k ++ drop end line.old }
{
    let number = write_digits(k, line, end);
    write_byte(b'#', line, number)
}

/// Writes a space and a word in hexadecimal just before `end` in the line. Returns where they
/// start.
#[tactic(auto, using(crate::proofs::Hexadecimal::at_most_16))]
pub fn write_word(word: u64, line: &mut [u8], end: usize) -> usize
    requires room { WORD_BYTES ≤ end }
    requires within { end ≤ length line.old }
    ensures room { end ≤ result + WORD_BYTES }
    ensures within { result ≤ end }
    ensures written { drop result line.new ≡ codes " " ++ hexadecimal word ++ drop end line.old }
    ensures spelled { is_word word ≡ true }
{
    let digits = write_hexadecimal(word, line, end);
    write_byte(b' ', line, digits)
}

/// Writes a space and each of these words, as `write_word` does it, just before `end` in the line.
/// Returns where they start.
pub fn write_words(words: &[u64], line: &mut [u8], end: usize) -> usize
    requires room { WORD_BYTES * length words.now ≤ end }
    requires within { end ≤ length line.old }
    ensures room { end ≤ result + WORD_BYTES * length words.now }
    ensures within { result ≤ end }
    ensures written { drop result line.new ≡
        flat_map (λ word. codes " " ++ hexadecimal word) words.now ++ drop end line.old }
    ensures spelled { list_all is_word words.now ≡ true }
{
    let mut at = end;
    let mut rest = words;
    'words: while let Some((last, before)) = rest.split_last() {
        at = write_word(*last, line, at);
        rest = before;
    }
    at
}
