//! The emulator for programs in other languages: a static library of one function. It takes the
//! words of a command line, and the files that they name as texts in memory. It puts what the
//! program would print into buffers of the caller.
//!
//! It starts no thread, waits for nobody, and touches no file. A run goes in rounds on the caller's
//! thread. Nothing is kept from one call to the next. `bindings/include/l4emu.h` declares the
//! function for C.
#![tactic(auto)]

ghost use Rattle.std.specs.Prelude.{◌≡◌, length};
ghost use Rattle.l4_c.specs.Answers.{Answered, IsAnswer, lengths_of, put_in};
ghost use Rattle.l4_c.specs.Files.{three_files};

mod answers;
mod files;
mod words;

use crate::answers::{Answer, NO_MEMORY, answer_of};
use crate::files::{Files, NamedFile};
use std::alloc::Global;

/// How many bytes there are for each buffer of a call, whether they fit or not.
#[repr(C)]
#[derive(Clone, Copy, Debug, PartialEq, Eq)]
pub struct Lengths {
    /// Of what goes to the output.
    pub out: usize,
    /// Of what goes to the faults.
    pub faults: usize,
    /// Of the list that is recorded.
    pub recorded: usize,
}

// Puts these bytes to the beginning of a buffer if they fit, and returns how many they are.
fn put(bytes: &[u8], buffer: &mut [u8]) -> usize
    ensures put { buffer.new ≡ put_in bytes.now buffer.old }
    ensures count { result ≡ length bytes.now }
{
    if bytes.len() <= buffer.len() {
        buffer[..bytes.len()].copy_from_slice(bytes);
    }
    bytes.len()
}

/// Does what the words of a command line ask for.
///
/// `words` are those behind the name of the program, each ended by a byte 0. What follows the last
/// 0 is no word. The three files have the names that words may have for them; one without a name is
/// not there. What goes to the output, to the faults and into the record is put to the beginning of
/// its buffer, where it fits. A buffer that is too small stays as it is. `lengths` has the lengths
/// of all three, so that a caller may try again.
///
/// Returns the exit status of the program: 0 to 4.
#[unsafe(no_mangle)]
pub extern "C" fn l4emu_perform(
    alloc: Global,
    words: &[u8],
    first_name: &[u8],
    first: &[u8],
    second_name: &[u8],
    second: &[u8],
    third_name: &[u8],
    third: &[u8],
    out: &mut [u8],
    faults: &mut [u8],
    recorded: &mut [u8],
    lengths: &mut Lengths,
) -> u8
    ensures { (answer : Answered) ×
        IsAnswer words.now (three_files first_name.now first.now second_name.now second.now
        third_name.now third.now) answer ×
        (out.new ≡ put_in answer.out out.old) × (faults.new ≡ put_in answer.faults faults.old) ×
        (recorded.new ≡ put_in answer.recorded recorded.old) × (lengths.new ≡ lengths_of answer) ×
        (result ≡ answer.status) }
{
    let files = Files {
        first: NamedFile {
            name: first_name,
            text: first,
        },
        second: NamedFile {
            name: second_name,
            text: second,
        },
        third: NamedFile {
            name: third_name,
            text: third,
        },
    };
    match answer_of(alloc, words, &files) {
        Ok(answer) => {
            *lengths = Lengths {
                out: put(answer.out.as_slice(), out),
                faults: put(answer.faults.as_slice(), faults),
                recorded: put(answer.recorded.as_slice(), recorded),
            };
            answer.status
        }
        Err(_) => {
            *lengths = Lengths {
                out: 0,
                faults: put(NO_MEMORY, faults),
                recorded: 0,
            };
            1
        }
    }
}
