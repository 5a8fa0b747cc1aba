//! The words of a call.
ghost use Rattle.std.specs.Prelude.{◌≡◌, ◌==◌, IfOk, map};
ghost use Rattle.std.specs.List.{slice_split};
ghost use Rattle.l4_c.specs.Words.{line_of};

use l4_types::errors::NoMemory;
use std::alloc::{AllocError, Global};

// The first word of a command line, which no call has.
const PROGRAM: &str = "l4run";

// What stands before, between and behind the bytes 0 of a text.
fn parts(alloc: Global, text: &str) -> Result<Vec<&str>, AllocError>
    ensures { IfOk result (λ parts.
        map (λ part. part.now) parts.items ≡ slice_split (λ byte. byte == 0) text.now) }
{
    text.split('\0').collect(alloc)
}

/// The words of a text, each ended by a byte 0, behind the name of the program.
pub fn words_of(alloc: Global, text: &str) -> Result<Vec<&str>, NoMemory>
    ensures { IfOk result (λ words. map (λ word. word.now) words.items ≡ line_of text.now) }
{
    let mut words = parts(alloc, text)?;
    // What stands behind the last 0 is no word.
    let _ = words.pop();
    words.insert(0, PROGRAM)?;
    Ok(words)
}
