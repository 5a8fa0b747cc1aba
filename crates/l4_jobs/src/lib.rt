//! The program `l4run` without its streams: it reads the words of a command line, and does what
//! they ask for.
//!
//! `job_of` reads the words. `done` makes what a job comes to, a value: the lines, a record, what is
//! said behind them, and the status. `perform_on_files` opens the files that a job names, makes
//! that, and writes it. `perform` does so over two sources.
//!
//! Contracts speak of bytes. One relation, `IsDone`, says what each job comes to; the laws of
//! `laws` follow from it. Either all of that is written, each part once: the record, the lines, and
//! what is said behind them. Or one line of a fault is written, and the status is 1. In front of
//! that line stand the first endings of a search that was stopped: these are written as they are
//! found. Contracts also say which file is which, and which fault comes first. No contract says what
//! the listener of a search is told, nor how early an ending is written.
//!
//! `l4_cases` has what each command prints, and what a fault displays.
//!
//! ```rust
//! let job = job_of(alloc, &["l4run", "run", "examples/first.l4"])?;
//! let status = perform_on_files(&rt, alloc, &rt, false, &job, &mut out, &mut faults, &mut Unheard);
//! ```
#![tactic(auto)]

pub mod audits;
mod charts;
pub mod done;
mod explanations;
mod extras;
pub mod fault;
pub mod jobs;
pub mod laws;
mod lints;
mod nexts;
mod objects;
pub mod perform;
mod reading;
pub mod refusal;
pub mod rounds;
mod runs;
mod schedules;
mod searches;
mod steps;
mod streaming;
mod trace_lines;
mod trace_output;

pub use l4_commands::{job, words};
pub use l4_streams::streams;
