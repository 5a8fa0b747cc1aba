//! Names that a text with scripts of version 2 declares, and that nothing uses.
ghost use Rattle.std.specs.Prelude.{◌≡◌};
ghost use Rattle.l4_script.specs.Inner.Second.{stage_of};
ghost use Rattle.l4_lint.specs.Lines.{lines_of};
ghost use Rattle.l4_lint.specs.Second.Unused.{has_word, is_name_looked_for, is_unused_name};

use super::parts::parts_of;
use crate::faults::next_line;
use l4_script::text::second::Stage;
use l4_words::words::Words;

// Of so many names it is told, since for each it may take as long as the text is.
const MOST_NAMES_LOOKED: usize = 16;

fn has_word(word: &[u8], line: &[u8]) -> bool
    ensures { result ≡ has_word word.now line.now }
{
    let mut words = Words::of(parts_of(line).words);
    'words: while let Some(other) = words.next() {
        if word == other {
            return true;
        }
    }
    false
}

/// Whether no line of a text has this name.
pub(crate) fn is_unused_name(text: &[u8], name: &[u8]) -> bool
    ensures { result ≡ is_unused_name (lines_of text.now) name.now }
{
    let mut rest = text;
    'lines: while let Some((line, others)) = next_line(rest) {
        if has_word(name, line) {
            return false;
        }
        rest = others;
    }
    true
}

/// Whether it is told of the last name that was read whether it is used: of the first 16 it is.
pub(crate) fn is_name_looked_for(stage: &Stage<'_>) -> bool
    ensures { result ≡ is_name_looked_for (stage_of stage.now) }
{
    match stage {
        Stage::Threads(reading) => reading.names().len() <= MOST_NAMES_LOOKED,
        Stage::Start | Stage::Processors(_) => false,
    }
}
