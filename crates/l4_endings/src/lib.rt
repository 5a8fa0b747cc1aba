//! What a set of threads may come to: the endings of all core runs of a machine.
//!
//! An ending is a state at rest: nothing is to be done, armed or under way. A breadth-first search
//! tries whatever may happen next in each state, once for all states that are similar. So it finds
//! each ending by a shortest schedule. What a choice does is replayed once for the parts of a state
//! that it reads (`l4_parts`), and remembered.
//!
//! ```rust
//! let found = endings(alloc, &machine, 1_000, 100_000, &mut Unheard)?;
//! for entries in &found.endings {
//!     let outcome = replay_compact(alloc, &machine, entries)?; // its report, or its trace
//! }
//! ```
#![tactic(auto)]

mod endings_of;
mod learning;
mod memory;
mod sets;
mod states;
mod tried;
mod walks;

pub use endings_of::{FoundEndings, Looked, endings, endings_telling, entries_at};
