//! What no world on the way may meet: whether a world does, whatever the scheduler does and whatever
//! time passes, and by which history.
//!
//! A condition is that a world tells some lines of a report, all at once (`l4_expect`). Each world
//! that a breadth-first search finds is judged, the opening and those in which nothing can go on
//! among them. The search may tell a step alone that nobody can disturb, though only one that writes
//! nothing that the condition reads, and where it leads to a world that the search has not gone on
//! from. So where it is whole, and no found world meets the condition, no history does. Where one
//! does, a second search, by all steps, looks for a history of fewer steps.
//!
//! ```rust
//! let condition = Condition::parse(alloc, b"never thread 1.1 ready .. & thread 2.1 ready ..")?;
//! let verdict = verdict_of(alloc, &machine, &condition, 1_000, 100_000, &mut Unheard)?;
//! if let Some(met) = &verdict.met {
//!     let history = trace_of(alloc, &machine, &met.entries)?; // its last world meets the condition
//! }
//! ```
#![tactic(auto)]

mod reading;
mod search;
mod told;
mod unseen;
mod watch;

pub use search::{Met, Verdict, verdict_of};
pub use told::world_lines_after;
