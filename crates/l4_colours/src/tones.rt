//! What a line is painted in.
ghost use Rattle.std.specs.Prelude.{◌≡◌, bytes_eq};
ghost use Rattle.std.specs.List.{list_any, slice_split};
ghost use Rattle.l4_colours.specs.Tones.{has_word, is_bad, is_fair, is_good, is_plain, line_tone};
ghost use Rattle.l4_colours.specs.Tones.{words_in};

/// What a line is painted in.
#[derive(Clone, Copy, Debug, PartialEq, Eq)]
pub enum Tone {
    /// Nothing.
    Plain,
    /// Green.
    Good,
    /// Yellow.
    Fair,
    /// Red.
    Bad,
}

/// Whether nothing is painted.
pub fn is_plain(tone: Tone) -> bool
    ensures { result ≡ is_plain tone }
{
    match tone {
        Tone::Plain => true,
        Tone::Good | Tone::Fair | Tone::Bad => false,
    }
}

// Whether a word is this one.
fn is(word: &[u8], known: &str) -> bool
    ensures { result ≡ bytes_eq word.now known.now }
{
    word == known.as_bytes()
}

fn is_bad(word: &[u8]) -> bool
    ensures { result ≡ is_bad word.now }
{
    is(word, "deadlock") || is(word, "ever,")
}

fn is_fair(word: &[u8]) -> bool
    ensures { result ≡ is_fair word.now }
{
    is(word, "circle")
        || is(word, "held")
        || is(word, "stimeout")
        || is(word, "rtimeout")
        || is(word, "snobody")
        || is(word, "rnobody")
        || is(word, "scancel")
        || is(word, "rcancel")
        || is(word, "drop")
}

fn is_good(word: &[u8]) -> bool
    ensures { result ≡ is_good word.now }
{
    is(word, "deliver")
}

/// The tone of a line, by the words in it: the worst that one of them has.
pub fn line_tone(line: &[u8]) -> Tone
    ensures { result ≡ line_tone line.now }
{
    if has_bad(line) {
        Tone::Bad
    } else if has_fair(line) {
        Tone::Fair
    } else if has_good(line) {
        Tone::Good
    } else {
        Tone::Plain
    }
}

fn has_bad(line: &[u8]) -> bool
    ensures { result ≡ has_word is_bad line.now }
{
    line.split(|byte| *byte == b' ').any(is_bad)
}

fn has_fair(line: &[u8]) -> bool
    ensures { result ≡ has_word is_fair line.now }
{
    line.split(|byte| *byte == b' ').any(is_fair)
}

fn has_good(line: &[u8]) -> bool
    ensures { result ≡ has_word is_good line.now }
{
    line.split(|byte| *byte == b' ').any(is_good)
}
