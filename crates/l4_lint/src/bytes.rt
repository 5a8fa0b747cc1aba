//! The bytes of a line.
ghost use Rattle.std.specs.Prelude.{◌≡◌, ◌≤◌, ◌<◌, ◌==◌, length, true, IfSome};
ghost use Rattle.std.specs.List.{before_first, after_first};
ghost use Rattle.l4_lint.specs.Bytes.{word_of, behind, bad_byte, byte_hint, clear};

use crate::hints::Hint;
use l4_words::lines::find_byte;

const BYTE_ORDER_MARK: &[u8] = b"\xef\xbb\xbf";

/// The bytes before the first `byte`, or all where there is none, and the bytes behind it.
pub(crate) fn split_at_byte(byte: u8, bytes: &[u8]) -> (&[u8], &[u8])
    ensures front { result.0.now ≡ before_first (λ other. other == byte) bytes.now }
    ensures rest { result.1.now ≡ after_first (λ other. other == byte) bytes.now }
    ensures shorter { length result.1.now ≤ length bytes.now }
{
    match find_byte(byte, bytes) {
        Some(end) => (&bytes[..end], &bytes[end + 1..]),
        None => (bytes, &bytes[bytes.len()..]),
    }
}

/// The word that a line begins with, and what follows the space behind it.
pub(crate) fn split_word(line: &[u8]) -> (&[u8], &[u8])
    ensures word { result.0.now ≡ word_of line.now }
    ensures rest { result.1.now ≡ behind line.now }
    ensures shorter { length result.1.now ≤ length line.now }
{
    split_at_byte(b' ', line)
}

/// The place of the first byte that is not printable ASCII.
pub(crate) fn bad_byte(line: &[u8]) -> Option<usize>
    ensures value { result ≡ bad_byte line.now }
    ensures within { IfSome result (λ index. index < length line.now) }
{
    line.iter().position(|byte| !matches!(byte, b' '..=b'~'))
}

/// The hint for such a byte, in the line of this number.
pub(crate) fn byte_hint(number: usize, line: &[u8], byte: u8) -> Hint
    ensures { result ≡ byte_hint number line.now byte }
{
    if number == 1 && line.starts_with(BYTE_ORDER_MARK) {
        return Hint::ByteOrderMark;
    }
    match byte {
        b'\r' => Hint::CarriageReturn,
        b'\t' => Hint::Tab,
        _ => Hint::Unprintable,
    }
}

/// The number of bytes before the first surplus space, or of all bytes where there is none.
pub(crate) fn clear(line: &[u8]) -> usize
    ensures value { result ≡ clear true line.now }
    ensures within { result ≤ length line.now }
{
    let mut spaced = true;
    for (index, byte) in line.iter().enumerate() {
        let space = *byte == b' ';
        if spaced && space {
            return index;
        }
        spaced = space;
    }
    line.len()
}
