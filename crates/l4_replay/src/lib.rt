//! Replays under way: the processors of a machine on one thread of the host, moved on entry by
//! entry, with the letters under way between them.
//!
//! A `Walk` takes entries and answers what each processor knows, and which letters have come to it.
//! Contracts say which core run it is, so `law_core_run` holds of it. `Processors` are the same for
//! those who want the steps of its events, in a buffer of their own, and ask how a replay ends:
//! whether anything is left to do, and the threads as their own processors will have them (`homes`).
//! `schedules` does what the entries of a schedule ask for, and refuses the first that is none of
//! the machine; `waiting` looks for undecided sends. `l4_machine` makes outcomes of these.
//!
//! ```rust
//! let mut walk = Walk::new(alloc, &machine)?;
//! walk.take(Entry::Turn(0))?;
//! assert!(rt; walk.events() <= 1);
//! ```
#![tactic(auto)]

pub mod entries;
mod fault;
pub mod homes;
mod inbox;
mod laws;
mod letter_queue;
mod listener;
mod node;
pub mod processors;
pub mod schedules;
pub mod waiting;
mod walk;

pub use entries::Entry;
pub use fault::RunFault;
pub use laws::law_core_run;
pub use letter_queue::Letters;
pub use listener::Listener;
pub use processors::Processors;
pub use schedules::{MOST_ENTRIES, MOST_EVENTS, MOST_TURNS};
pub use walk::Walk;
