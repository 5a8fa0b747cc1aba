//! Counts of what each thread does in a history: instructions run, sends begun, sends delivered,
//! messages received, and ipcs failed with each ErrorCode.
//!
//! Definitions count the steps of a list, `Counts::of` those of a history. `counts_of_each` goes
//! over the history once for all threads. It counts each step at the threads that the step
//! concerns, which are two at most.
//!
//! An order that is not admitted fails with ErrorCode 2, too. Such an order is a `local` step like
//! any other, and no ipc, so it counts as a turn alone.
//!
//! ```rust
//! let mut lines = Vec::new(alloc);
//! write_counts(alloc, &machine, &history, &mut lines)?;
//! // counts 1.1 turns 4 sends 1 delivered 1 received 0 refused 2:0 3:0 4:0 5:0 6:0 7:0
//! ```
#![tactic(auto)]

pub mod counts;
pub mod lines;
pub mod threads;
