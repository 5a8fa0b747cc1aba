//! The words of the command line of `l4run`: which job they ask for, or why none.
//!
//! `clap` reads the words. `options` has the commands, with a row for each argument; `commands` makes
//! clap's commands of them, and `asked` reads clap's matches. Contracts see all as functions of the
//! words. `job_of` returns the job that the matches ask for.
//! It answers help only where the words ask for it, and usage only where they are wrong. `l4_jobs`
//! does the job.
//!
//! ```rust
//! let job = job_of(alloc, &["l4run", "run", "first.l4"])?;
//! assert!(job.file() == "first.l4");
//! ```
#![tactic(auto)]

mod asked;
mod commands;
pub mod job;
mod options;
mod texts;
pub mod words;
