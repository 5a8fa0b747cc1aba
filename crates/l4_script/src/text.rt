//! Machine texts, and their reader.
ghost use Rattle.std.specs.Prelude.{◌≡◌, ◌≤◌, length};
ghost use Rattle.l4_script.specs.Canonical.{IsReadBack, EachHasText};
ghost use Rattle.l4_script.specs.Second.Canonical.{EachHasSecondText, IsSecondReadBack, WritesItsWords};
ghost use Rattle.l4_words.specs.Lines.{parts_of};
ghost use Rattle.l4_script.specs.Texts.{Start, Reads, read};
ghost use Rattle.l4_script.specs.Versions.{machine_of_text};

mod fault;
mod ids;
mod lines;
mod numbers;
mod operations;
mod reading;
pub mod second;
mod statements;

use crate::machine::Machine;
pub use fault::{TextFault, TextFaultKind};
pub use ids::{id, thread_in};
use l4_words::lines::split_line;
pub use lines::{has_empty_word, words_of};
pub use numbers::{number, number_from, time, word_from};
pub use operations::operation;
pub use reading::{Reading, Stage, Target};
pub use statements::{Heading, bits, destination, instruction, processor};
use std::alloc::Global;

/// How many bytes a text has at most.
pub const MOST_BYTES: usize = 0x10_0000;

impl Machine {
    /// The machine that a text declares, or the text's first fault. `NoMemory` only where memory
    /// was refused; then it says nothing of the text.
    pub fn parse(alloc: Global, text: &[u8]) -> Result<Machine, TextFault>
        ensures { Reads result (machine_of_text text.now) }
    {
        if text.len() > MOST_BYTES {
            return Err(TextFault {
                line: 0,
                kind: TextFaultKind::TooLong,
            });
        }
        if second::begins_second(text) {
            return second::read(alloc, text);
        }
        read(alloc, text)
    }
}

/// The machine of a text that is not too long.
fn read(alloc: Global, text: &[u8]) -> Result<Machine, TextFault>
    requires { length text.now ≤ 0x10_0000 }
    ensures { Reads result (read (parts_of text.now) Start 1) }
{
    let mut stage = Stage::Start;
    let mut rest = text;
    let mut number = 1;
    'lines: while let Some((line, others)) = split_line(rest) {
        stage.read_line_at(number, alloc, line)?;
        rest = others;
        number += 1;
    }
    if !rest.is_empty() {
        return Err(TextFault::at(number, TextFaultKind::BadLine));
    }
    stage.ended(number)
}

/// The canonical text of a machine has a line for each thread and instruction, with every number in
/// decimal. Unless it is too long, it declares that machine and no other. Every declared machine
/// has one, in the format of its text. Its scripts write words of that format alone. So it is of
/// texts with scripts of version 2, which every declared machine has.
pub fn law_canonical_text()
    ensures read_back { IsReadBack }
    ensures each { EachHasText }
    ensures second { IsSecondReadBack }
    ensures each_second { EachHasSecondText }
    ensures words { WritesItsWords }
{}
