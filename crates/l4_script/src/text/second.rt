//! Texts with scripts of version 2: those whose first line is `l4 P B 2`.
ghost use Rattle.std.specs.Prelude.{◌≡◌, ◌≤◌, length, Bool};
ghost use Rattle.std.specs.Prelude.{MatchOption};
ghost use Rattle.l4_words.specs.Lines.{parts_of};
ghost use Rattle.l4_script.specs.Texts.{Reads};
ghost use Rattle.l4_script.specs.Second.Lines.{second_line_of};
ghost use Rattle.l4_script.specs.Second.Texts.{Start, read, says_second, begins_second};

mod lines;
mod names;
mod operands;
mod reading;
mod statements;

use super::fault::{TextFault, TextFaultKind};
use crate::machine::Machine;
use l4_words::lines::split_line;
pub use lines::{
    Said, ends_with_byte, line_said, said_part, split_first, without_first_blanks, without_last,
    without_last_blanks, without_return,
};
pub use names::{MOST_NAMES, Named, id_named, is_name, thread_named};
pub use operands::{Place, id_or_last, id_or_register, named_place, second_time};
pub use reading::{Label, Reading, Stage, Target};
use statements::is_heading;
pub use statements::{Heir, Unplaced, instruction};
use std::alloc::Global;

/// The machine of a text with scripts of version 2 that is not too long.
pub(super) fn read(alloc: Global, text: &[u8]) -> Result<Machine, TextFault>
    requires { length text.now ≤ 0x10_0000 }
    ensures { Reads result (read (parts_of text.now) Start 1) }
{
    let mut stage = Stage::Start;
    let mut rest = text;
    let mut number = 1;
    'lines: while let Some((line, others)) = split_line(rest) {
        stage.read_line_at(number, alloc, line)?;
        rest = others;
        number += 1;
    }
    if !rest.is_empty() {
        return Err(TextFault::at(number, TextFaultKind::BadLine));
    }
    stage.ended(number)
}

// Whether a line says that the scripts are of version 2. None where it says nothing.
fn says_second(line: &[u8]) -> Option<bool>
    ensures { MatchOption result
        ((later : Bool) → says_second (second_line_of line.now) later ≡ later)
        (λ says. (later : Bool) → says_second (second_line_of line.now) later ≡ says) }
{
    match line_said(line) {
        Ok(None) => None,
        Ok(Some(said)) => Some(said.label.is_none() && is_heading(said.words)),
        Err(_) => Some(false),
    }
}

/// Whether the first line that says something is `l4 P B 2`.
pub fn begins_second(text: &[u8]) -> bool
    ensures { result ≡ begins_second (parts_of text.now) }
{
    let mut rest = text;
    'lines: while let Some((line, others)) = split_line(rest) {
        if let Some(is_second) = says_second(line) {
            return is_second;
        }
        rest = others;
    }
    says_second(rest).unwrap_or(false)
}
