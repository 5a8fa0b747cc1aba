//! The parts of a line with scripts of version 2.
ghost use Rattle.std.specs.Prelude.{◌≡◌};
ghost use Rattle.l4_lint.specs.Second.Parts.{front_of, parts_in, parts_of, begins_script};
ghost use Rattle.l4_lint.specs.Inner.Views.{parts_view};

use crate::bytes::split_at_byte;
use crate::commands;
use l4_script::text::second::{
    ends_with_byte, split_first, without_first_blanks, without_last, without_last_blanks,
    without_return,
};

/// A line up to the end of what it says; what stands there behind blanks; the name in front of
/// that, without its `:`; and the words behind it.
#[derive(Clone, Copy)]
pub(crate) struct Parts<'a> {
    pub(crate) front: &'a [u8],
    pub(crate) said: &'a [u8],
    pub(crate) label: Option<&'a [u8]>,
    pub(crate) words: &'a [u8],
}

fn front_of(line: &[u8]) -> &[u8]
    ensures { result.now ≡ front_of line.now }
{
    without_last_blanks(split_at_byte(b';', without_return(line)).0)
}

fn parts_in<'a>(front: &'a [u8], said: &'a [u8]) -> Parts<'a>
    ensures { parts_view result ≡ parts_in front.now said.now }
{
    let (first, others) = split_first(said);
    if ends_with_byte(b':', first) {
        return Parts {
            front,
            said,
            label: Some(without_last(first)),
            words: others,
        };
    }
    Parts {
        front,
        said,
        label: None,
        words: said,
    }
}

/// The parts of a line.
pub(crate) fn parts_of(line: &[u8]) -> Parts<'_>
    ensures { parts_view result ≡ parts_of line.now }
{
    let front = front_of(line);
    parts_in(front, without_first_blanks(front))
}

/// Whether the first of the words of a line, behind a name, is `thread`.
pub(crate) fn begins_script(line: &[u8]) -> bool
    ensures { result ≡ begins_script line.now }
{
    commands::begins_script(parts_of(line).words)
}
