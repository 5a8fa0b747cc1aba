//! Traces: the line of each step, written, and read back.
//!
//! `write_event` appends the line of a step, and `trace` returns the lines of a history.
//! `read_events` returns the steps that a text spells, or its first faulty line, counted from 1.
//! Contracts see lists of bytes and the model's steps. A text is the trace of at most one list of
//! steps, and what is written is read back as the same steps. The keywords stand in one table,
//! which reader and writer share.
//!
//! Whether the steps are possible is the audit's to say (`l4_audit`). If memory is refused,
//! `write_event` leaves no half line.
//!
//! ```rust
//! let steps = read_events(alloc, b"wait 2.1\nlocal 1.1\n")?;
//! let lines = trace(alloc, steps.as_slice())?;
//! assert!(rt; lines.as_slice() == b"wait 2.1\nlocal 1.1\n".as_slice());
//! ```
#![tactic(auto)]

pub mod fault;
mod frequent;
mod keywords;
pub mod lines;
pub mod reader;
pub mod reading;
mod steps;
mod texts;
pub mod traces;
