//! Reports: a line for each thread of a machine, for each undecided send, and for the ending of a
//! run.
//!
//! `write_report` appends the report of a run to a text. Contracts see lists of bytes and the
//! model's reports. A report has no other lines. Threads stand in order of declaration, and sends
//! in order of beginning. If memory is refused, nothing is appended.
//!
//! ```rust
//! let outcome = replay_compact(alloc, &machine, entries)?;
//! write_report(&outcome.threads, &outcome.waiting, outcome.ending, &mut lines)?;
//! ```
#![tactic(auto)]

pub mod report_lines;
