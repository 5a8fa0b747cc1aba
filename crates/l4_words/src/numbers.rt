//! Numbers below 2^64 as words spell them.
ghost use Rattle.std.specs.Prelude.{◌≡◌, if◌then◌else◌, nat_lt, ◌<◌, ◌≤◌, ◌+◌, ◌*◌, ◌^◌, IfSome};
ghost use Rattle.std.specs.Prelude.{Some, None, is_some, length, slice_index, take, IfNone};
ghost use Rattle.std.specs.List.{prefix_len};
ghost use Rattle.l4_words.specs.Numbers.{digit_of, with_digit, number_onto, value_of};
ghost use Rattle.l4_words.specs.Numbers.{has_leading_zero, number_of, padded_of};

// A number of this many digits is below 2^64, in base 10 and in base 16.
const FEW_DIGITS: usize = 16;

// What stands for no digit: no eight digits make a number that large.
const NO_DIGIT: u64 = 1 << 32;

// The value of each byte as a digit, lower case only.
static DIGITS: [u64; 256] = [
    NO_DIGIT, NO_DIGIT, NO_DIGIT, NO_DIGIT, NO_DIGIT, NO_DIGIT, NO_DIGIT, NO_DIGIT, NO_DIGIT,
    NO_DIGIT, NO_DIGIT, NO_DIGIT, NO_DIGIT, NO_DIGIT, NO_DIGIT, NO_DIGIT, NO_DIGIT, NO_DIGIT,
    NO_DIGIT, NO_DIGIT, NO_DIGIT, NO_DIGIT, NO_DIGIT, NO_DIGIT, NO_DIGIT, NO_DIGIT, NO_DIGIT,
    NO_DIGIT, NO_DIGIT, NO_DIGIT, NO_DIGIT, NO_DIGIT, NO_DIGIT, NO_DIGIT, NO_DIGIT, NO_DIGIT,
    NO_DIGIT, NO_DIGIT, NO_DIGIT, NO_DIGIT, NO_DIGIT, NO_DIGIT, NO_DIGIT, NO_DIGIT, NO_DIGIT,
    NO_DIGIT, NO_DIGIT, NO_DIGIT, 0, 1, 2, 3, 4, 5, 6, 7, 8, 9, NO_DIGIT, NO_DIGIT, NO_DIGIT,
    NO_DIGIT, NO_DIGIT, NO_DIGIT, NO_DIGIT, NO_DIGIT, NO_DIGIT, NO_DIGIT, NO_DIGIT, NO_DIGIT,
    NO_DIGIT, NO_DIGIT, NO_DIGIT, NO_DIGIT, NO_DIGIT, NO_DIGIT, NO_DIGIT, NO_DIGIT, NO_DIGIT,
    NO_DIGIT, NO_DIGIT, NO_DIGIT, NO_DIGIT, NO_DIGIT, NO_DIGIT, NO_DIGIT, NO_DIGIT, NO_DIGIT,
    NO_DIGIT, NO_DIGIT, NO_DIGIT, NO_DIGIT, NO_DIGIT, NO_DIGIT, NO_DIGIT, NO_DIGIT, NO_DIGIT, 10,
    11, 12, 13, 14, 15, NO_DIGIT, NO_DIGIT, NO_DIGIT, NO_DIGIT, NO_DIGIT, NO_DIGIT, NO_DIGIT,
    NO_DIGIT, NO_DIGIT, NO_DIGIT, NO_DIGIT, NO_DIGIT, NO_DIGIT, NO_DIGIT, NO_DIGIT, NO_DIGIT,
    NO_DIGIT, NO_DIGIT, NO_DIGIT, NO_DIGIT, NO_DIGIT, NO_DIGIT, NO_DIGIT, NO_DIGIT, NO_DIGIT,
    NO_DIGIT, NO_DIGIT, NO_DIGIT, NO_DIGIT, NO_DIGIT, NO_DIGIT, NO_DIGIT, NO_DIGIT, NO_DIGIT,
    NO_DIGIT, NO_DIGIT, NO_DIGIT, NO_DIGIT, NO_DIGIT, NO_DIGIT, NO_DIGIT, NO_DIGIT, NO_DIGIT,
    NO_DIGIT, NO_DIGIT, NO_DIGIT, NO_DIGIT, NO_DIGIT, NO_DIGIT, NO_DIGIT, NO_DIGIT, NO_DIGIT,
    NO_DIGIT, NO_DIGIT, NO_DIGIT, NO_DIGIT, NO_DIGIT, NO_DIGIT, NO_DIGIT, NO_DIGIT, NO_DIGIT,
    NO_DIGIT, NO_DIGIT, NO_DIGIT, NO_DIGIT, NO_DIGIT, NO_DIGIT, NO_DIGIT, NO_DIGIT, NO_DIGIT,
    NO_DIGIT, NO_DIGIT, NO_DIGIT, NO_DIGIT, NO_DIGIT, NO_DIGIT, NO_DIGIT, NO_DIGIT, NO_DIGIT,
    NO_DIGIT, NO_DIGIT, NO_DIGIT, NO_DIGIT, NO_DIGIT, NO_DIGIT, NO_DIGIT, NO_DIGIT, NO_DIGIT,
    NO_DIGIT, NO_DIGIT, NO_DIGIT, NO_DIGIT, NO_DIGIT, NO_DIGIT, NO_DIGIT, NO_DIGIT, NO_DIGIT,
    NO_DIGIT, NO_DIGIT, NO_DIGIT, NO_DIGIT, NO_DIGIT, NO_DIGIT, NO_DIGIT, NO_DIGIT, NO_DIGIT,
    NO_DIGIT, NO_DIGIT, NO_DIGIT, NO_DIGIT, NO_DIGIT, NO_DIGIT, NO_DIGIT, NO_DIGIT, NO_DIGIT,
    NO_DIGIT, NO_DIGIT, NO_DIGIT, NO_DIGIT, NO_DIGIT, NO_DIGIT, NO_DIGIT, NO_DIGIT, NO_DIGIT,
    NO_DIGIT, NO_DIGIT, NO_DIGIT, NO_DIGIT, NO_DIGIT, NO_DIGIT, NO_DIGIT, NO_DIGIT, NO_DIGIT,
    NO_DIGIT, NO_DIGIT, NO_DIGIT, NO_DIGIT, NO_DIGIT, NO_DIGIT, NO_DIGIT, NO_DIGIT, NO_DIGIT,
    NO_DIGIT, NO_DIGIT, NO_DIGIT, NO_DIGIT, NO_DIGIT, NO_DIGIT, NO_DIGIT, NO_DIGIT, NO_DIGIT,
    NO_DIGIT, NO_DIGIT,
];

/// The value of a byte as a digit, or `NO_DIGIT`.
#[inline(always)]
fn face(byte: u8) -> u64
    ensures most { result ≤ 2 ^ 32 }
    ensures few { result < 2 ^ 32 → result < 16 }
    ensures digit { (radix : _) → radix ≤ 16 →
        digit_of radix byte ≡ (if nat_lt result radix then Some result else None) }
{
    DIGITS[usize::from(byte)]
}

/// The digit that a byte is.
#[inline(always)]
fn digit(byte: u8, radix: u64) -> Option<u64>
    requires { radix ≤ 16 }
    ensures { result ≡ digit_of radix byte }
{
    let digit = face(byte);
    if digit < radix { Some(digit) } else { None }
}

/// A number with one more digit after it.
fn with_digit(value: u64, byte: u8, radix: u64) -> Option<u64>
    requires { radix ≤ 16 }
    ensures { result ≡ with_digit radix value byte }
{
    let digit = digit(byte, radix)?;
    value.checked_mul(radix)?.checked_add(digit)
}

/// As `with_digit`, for a value that one more digit leaves below 2^64.
#[inline(always)]
fn with_next_digit(value: u64, byte: u8, radix: u64) -> Option<u64>
    requires room { (value + 1) * 16 ≤ 2 ^ 64 }
    requires radix { radix ≤ 16 }
    ensures value { result ≡ with_digit radix value byte }
    ensures small { IfSome result (λ more. more < (value + 1) * 16) }
    ensures none { IfNone result (digit_of radix byte ≡ None) }
{
    let digit = digit(byte, radix)?;
    Some(value * radix + digit)
}

/// The number that at most 16 digits spell. It is below 2^64.
#[inline(always)]
fn value_of_few(digits: &[u8], radix: u64) -> Option<u64>
    requires few { length digits.now ≤ 16 }
    requires radix { radix ≤ 16 }
    ensures { result ≡ number_onto radix 0 digits.now }
{
    let mut value = 0;
    for byte in digits {
        value = with_next_digit(value, *byte, radix)?;
    }
    Some(value)
}

/// The number of any digits.
fn value_of_many(digits: &[u8], radix: u64) -> Option<u64>
    requires { radix ≤ 16 }
    ensures { result ≡ number_onto radix 0 digits.now }
{
    let mut value = 0;
    for byte in digits {
        value = with_digit(value, *byte, radix)?;
    }
    Some(value)
}

/// The number that one digit or more spell, in base 10 or 16.
#[inline(always)]
fn value(digits: &[u8], radix: u64) -> Option<u64>
    requires { radix ≤ 16 }
    ensures { result ≡ value_of radix digits.now }
{
    if digits.is_empty() {
        None
    } else if digits.len() <= FEW_DIGITS {
        value_of_few(digits, radix)
    } else {
        value_of_many(digits, radix)
    }
}

#[inline(always)]
fn has_leading_zero(word: &[u8]) -> bool
    ensures { result ≡ has_leading_zero word.now }
{
    word.len() != 1 && word.first() == Some(&b'0')
}

/// The number that a word spells in a base, without leading zeros.
#[inline(always)]
fn number(word: &[u8], radix: u64) -> Option<u64>
    requires { radix ≤ 16 }
    ensures { result ≡ number_of radix word.now }
{
    if has_leading_zero(word) {
        None
    } else {
        value(word, radix)
    }
}

/// How many leading digits a text has.
#[inline(always)]
fn count_digits(text: &[u8], radix: u64) -> usize
    requires { radix ≤ 16 }
    ensures { result ≡ prefix_len (λ byte. is_some (digit_of radix byte)) text.now }
{
    let mut count = 0;
    while count < text.len() && digit(text[count], radix).is_some() {
        count += 1;
    }
    count
}

/// The value of the leading digits of a short text, and how many they are. So many were read
/// before, with this value.
#[inline(always)]
fn read_on(text: &[u8], radix: u64, before: (u64, usize)) -> (u64, usize)
    requires few { length text.now ≤ 16 }
    requires radix { radix ≤ 16 }
    requires within { before.1 ≤ length text.now }
    requires read { number_onto radix 0 (take before.1 text.now) ≡ Some before.0 }
    requires small { before.0 < 16 ^ before.1 }
    ensures count { result.1 ≤ length text.now }
    ensures value { number_onto radix 0 (take result.1 text.now) ≡ Some result.0 }
    ensures end { result.1 < length text.now →
        digit_of radix (slice_index text.now result.1) ≡ None }
{
    let (mut value, mut count) = before;
    while count < text.len() {
        let Some(more) = with_next_digit(value, text[count], radix) else {
            return (value, count);
        };
        value = more;
        count += 1;
    }
    (value, count)
}

/// The value of eight hexadecimal digits. `NO_DIGIT` or more where one of them is none.
#[inline(always)]
fn value_of_eight(digits: &[u8]) -> u64
    requires { length digits.now ≡ 8 }
    ensures { result < 2 ^ 32 → (before : _) → before < 2 ^ 32 →
        number_onto 16 before digits.now ≡ Some (before * 2 ^ 32 + result) }
{
    let mut value = face(digits[0]);
    value = value * 16 + face(digits[1]);
    value = value * 16 + face(digits[2]);
    value = value * 16 + face(digits[3]);
    value = value * 16 + face(digits[4]);
    value = value * 16 + face(digits[5]);
    value = value * 16 + face(digits[6]);
    value * 16 + face(digits[7])
}

/// The value of the first eight or sixteen hexadecimal digits of a short text, and how many they
/// are. None where it begins with fewer.
#[inline(always)]
fn eights_in_front(text: &[u8]) -> (u64, usize)
    requires few { length text.now ≤ 16 }
    ensures within { result.1 ≤ length text.now }
    ensures read { number_onto 16 0 (take result.1 text.now) ≡ Some result.0 }
    ensures small { result.0 < 16 ^ result.1 }
{
    if text.len() < 8 {
        return (0, 0);
    }
    let first = value_of_eight(&text[..8]);
    if first >= NO_DIGIT {
        return (0, 0);
    }
    if text.len() < 16 {
        return (first, 8);
    }
    let second = value_of_eight(&text[8..]);
    if second >= NO_DIGIT {
        return (first, 8);
    }
    (first * NO_DIGIT + second, 16)
}

/// The decimal number that a text begins with, and how many digits it has. None where it has more
/// than 16, or begins with a further zero.
#[inline(always)]
pub(crate) fn decimal_in_front(text: &[u8]) -> Option<(u64, usize)>
    ensures within { IfSome result (λ found. found.1 ≤ length text.now) }
    ensures value { IfSome result (λ found. number_of 10 (take found.1 text.now) ≡ Some found.0) }
{
    let front = &text[..text.len().min(FEW_DIGITS)];
    let (value, count) = read_on(front, 10, (0, 0));
    let digits = &text[..count];
    if digits.is_empty() || has_leading_zero(digits) {
        None
    } else {
        Some((value, count))
    }
}

/// The hexadecimal number that a text begins with, and how many digits it has.
#[inline(always)]
pub(crate) fn hexadecimal_in_front(text: &[u8]) -> (Option<u64>, usize)
    ensures count { result.1 ≡ prefix_len (λ byte. is_some (digit_of 16 byte)) text.now }
    ensures within { result.1 ≤ length text.now }
    ensures value { result.0 ≡ number_of 16 (take result.1 text.now) }
{
    let front = &text[..text.len().min(FEW_DIGITS)];
    let (value, count) = read_on(front, 16, eights_in_front(front));
    if count_digits(&text[count..], 16) != 0 {
        let count = count_digits(text, 16);
        return (number(&text[..count], 16), count);
    }
    let digits = &text[..count];
    if digits.is_empty() || has_leading_zero(digits) {
        (None, count)
    } else {
        (Some(value), count)
    }
}

/// The number of decimal digits without a leading zero. None where it is 2^64 or more.
pub fn decimal(word: &[u8]) -> Option<u64>
    ensures { result ≡ number_of 10 word.now }
{
    number(word, 10)
}

/// The number of hexadecimal digits in lower case, without a leading zero. None where it is 2^64 or
/// more.
pub fn hexadecimal(word: &[u8]) -> Option<u64>
    ensures { result ≡ number_of 16 word.now }
{
    number(word, 16)
}

/// The number of 1 to 16 hexadecimal digits in lower case, which may have leading zeros.
pub fn padded_hexadecimal(digits: &[u8]) -> Option<u64>
    ensures { result ≡ padded_of digits.now }
{
    if digits.len() <= 16 {
        value(digits, 16)
    } else {
        None
    }
}
