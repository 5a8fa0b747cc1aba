//! Every fault of a machine text with its place. `Machine::parse` tells only the first faulty line.
//!
//! The reader of `l4_script` itself judges each line, so the first fault is the one that
//! `Machine::parse` returns. A faulty line is left out, and the lines behind it are judged. `Fault`
//! has the line, the kind, the column and the word that stands there; its `Hint` says what may
//! stand there. `lint` prints a line for each. Where a text has no fault, `lint_with_doubts` prints
//! what is doubtful (`doubts`), and marks what always holds (`law_always`). `fault_shown` is what a
//! terminal is shown of the first fault: its line, the line of the text, and marks below the place.
//!
//! Memory is taken only for the list of faults and for what is printed.
//!
//! ```rust
//! let text = b"l4 1 64\ncpus 1\nthread 1.1 cpu 0 space 1\nset 64 10\n";
//! let found = faults(alloc, text)?;
//! assert!(rt; found.len() == 1 && found[0].line == 4 && found[0].place.column == 5);
//! assert!(rt; matches!(found[0].place.hint, Hint::Wanted(Operand::Register)));
//! ```
#![tactic(auto)]

mod bytes;
mod commands;
mod contexts;
pub mod doubts;
pub mod excerpts;
pub mod faults;
mod forms;
pub mod hints;
mod ids;
mod judging;
pub mod lint;
mod missed;
pub mod places;
pub mod printed;
mod reading;
mod scripts;
mod second;
pub mod spelling;
mod walks;
