//! Machine texts, and their reader: what a text declares, or its first fault.
//!
//! A `Machine` has processors, threads and their scripts. A run does not change it.
//! `Machine::parse` is the grammar of docs/FORMATS.md: each text means one machine, or has one
//! first fault with its line. Contracts see the model's machine; a value of `Instr` means one of
//! its instructions.
//!
//! Only `parse` and `try_clone` take memory. `l4_cases` has texts with faults and says which line
//! each names; the tests have texts that are cut off at each byte.
//!
//! ```rust
//! let text = b"l4 1 64\ncpus 1\nthread 1.1 cpu 0 space 1\nend\n";
//! let machine = Machine::parse(alloc, text)?;
//! assert!(rt; machine.cpus() == 1 && machine.threads().len() == 1);
//! ```
#![tactic(auto)]

pub mod instructions;
mod lookups;
pub mod machine;
mod places;
pub mod text;
