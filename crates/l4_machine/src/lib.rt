//! Whole machines: `run` on host threads, `replay` of a schedule, `gather` for callers with threads
//! of their own, and their law.
//!
//! Each returns an `Outcome`: the history, the undecided sends, the report of each thread, whether
//! anything was left to do, and how many turns were taken. Contracts say that it is the outcome of
//! a core run, so `law_core_run` holds of it: its history is one of the model, with all laws.
//! `run_compact` and `replay_compact` keep the history in 16 bytes a step.
//!
//! Which of its histories a run of several processors takes is up to the host; a replay has one.
//! Each history that a run may have is that of some entries of a replay (`l4_bisimilar`), and
//! `run_recorded` answers these entries too. That a run succeeds where memory is ample, and that
//! processors work at the same time, the tests see; no clause says it.
//!
//! ```rust
//! let outcome = replay(alloc, &machine, &[0, 1, 0, 16])?; // turns of 0, 1, 0; then a tick of 0
//! assert!(rt; outcome.turns <= 4);
//! ```
#![tactic(auto)]

mod gathering;
mod laws;
mod logs;
mod merging;
mod outcome;
mod recording;
mod run_history;
mod runs;
mod schedules;
mod searching;
mod team;
mod unmerged;

pub use gathering::gather;
pub use laws::law_one_outcome;
pub use logs::Logs;
pub use outcome::{CompactOutcome, Outcome, audited_outcome};
pub use run_history::RunHistory;
pub use runs::{run, run_compact, run_recorded};
pub use schedules::{replay, replay_compact};
