//! The lines of a text.
ghost use Rattle.std.specs.Prelude.{◌≡◌, ◌==◌, ◌<◌, ◌∷◌, [], length, position, IfSome, MatchOption};
ghost use Rattle.std.specs.List.{slice_split};
ghost use Rattle.l4_words.specs.Lines.{parts_of};

use memchr::memchr;

// So many bytes are tried one by one.
const FRONT_BYTES: usize = 8;

/// The index of the first `byte`.
pub fn find_byte(byte: u8, bytes: &[u8]) -> Option<usize>
    ensures { result ≡ position (λ other. other == byte) bytes.now }
{
    bytes.iter().position(|other| *other == byte)
}

/// As `find_byte`; faster where the byte is far off or comes first.
#[inline(always)]
fn find_far_byte(byte: u8, bytes: &[u8]) -> Option<usize>
    ensures { result ≡ position (λ other. other == byte) bytes.now }
{
    match bytes.first() {
        Some(first) if *first == byte => Some(0),
        _ => find_behind_front(byte, bytes),
    }
}

// As `find_byte`. Most lines are short: so a few bytes are tried one by one before a search of many
// at once begins.
#[inline(always)]
fn find_behind_front(byte: u8, bytes: &[u8]) -> Option<usize>
    ensures { result ≡ position (λ other. other == byte) bytes.now }
{
    let front = &bytes[..bytes.len().min(FRONT_BYTES)];
    match find_byte(byte, front) {
        Some(place) => Some(place),
        None => memchr(byte, bytes),
    }
}

// What comes before and after the first such byte, which is at this place.
#[inline(always)]
fn split_at(byte: u8, bytes: &[u8], place: Option<usize>) -> Option<(&[u8], &[u8])>
    requires { place ≡ position (λ other. other == byte) bytes.now }
    ensures parts { MatchOption result
        (slice_split (λ other. other == byte) bytes.now ≡ bytes.now ∷ [])
        (λ split. slice_split (λ other. other == byte) bytes.now ≡
        split.0.now ∷ slice_split (λ other. other == byte) split.1.now) }
    ensures shorter { IfSome result (λ split. length split.1.now < length bytes.now) }
{
    let end = place?;
    Some((&bytes[..end], &bytes[end + 1..]))
}

/// What comes before the first such byte, and what follows it. None where there is no such byte.
pub fn split_once(byte: u8, bytes: &[u8]) -> Option<(&[u8], &[u8])>
    ensures parts { MatchOption result
        (slice_split (λ other. other == byte) bytes.now ≡ bytes.now ∷ [])
        (λ split. slice_split (λ other. other == byte) bytes.now ≡
        split.0.now ∷ slice_split (λ other. other == byte) split.1.now) }
    ensures shorter { IfSome result (λ split. length split.1.now < length bytes.now) }
{
    split_at(byte, bytes, find_byte(byte, bytes))
}

/// The first line of a text, without its end, and what follows. None where no line is ended.
#[inline(always)]
pub fn split_line(text: &[u8]) -> Option<(&[u8], &[u8])>
    ensures parts { MatchOption result
        (parts_of text.now ≡ text.now ∷ [])
        (λ split. parts_of text.now ≡ split.0.now ∷ parts_of split.1.now) }
    ensures shorter { IfSome result (λ split. length split.1.now < length text.now) }
{
    split_at(b'\n', text, find_far_byte(b'\n', text))
}
