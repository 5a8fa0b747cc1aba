//! Threads that may get stuck for ever, beside others that go on.
//!
//! A thread is stuck for ever where it waits in a send phase, or in a receive phase that takes one
//! thread alone, and goes on waiting there whatever the scheduler does and whatever time passes
//! (`l4_forever`). In an ending each thread that waits so is. But a text that goes on for ever has no
//! ending, and a thread may be stuck beside others that never rest.
//!
//! A breadth-first search goes through the worlds that steps lead to. It may tell a step alone that
//! nobody can disturb, though only where this leads to a world that it has not gone on from: else a
//! thread that goes round by itself would hide all others. Then, from each world from which a step of
//! a thread was seen, this goes back along the steps. The thread is stuck for ever in the worlds that
//! are left.
//!
//! ```rust
//! let found = stuck_threads(alloc, &machine, 1_000, 100_000, &mut Unheard)?;
//! for stuck in &found.threads {
//!     let history = trace_of(alloc, &machine, &stuck.entries)?; // after it the thread is stuck
//! }
//! ```
#![tactic(auto)]

mod graph;
mod moves;
mod search;
mod walks;

pub use search::{FoundThreads, StuckThread, stuck_threads};
pub use walks::{choices_by, is_later};
