//! Runs and replays whose history is told and not kept: a listener hears its steps on the way, and
//! what is returned is where the run ended.
//!
//! Contracts say that some history was told, and that with it the findings are those of a run or
//! replay of `l4_machine`, with all laws. A machine of one processor, and each replay, keeps no log
//! and at most some 131,000 steps, with the words of their messages; once it has so many, what it
//! takes in memory grows no further. Two keep more: a run of several processors keeps their logs,
//! as their events are merged at the end, and a replay of several, once a thread is deleted, keeps
//! all steps.
//!
//! ```rust
//! let mut history = History::new(alloc);
//! let state = run_told(&rt, alloc, &machine, 1_000, &mut history)?;
//! assert!(rt; state.turns <= 1_000 + 15);
//! ```
#![tactic(auto)]

mod alone;
mod final_state;
mod kept_steps;
mod replay;
mod told;

pub use final_state::{FinalState, parts_of};
pub use told::{replay_told, run_told};
