//! Walks at random through the worlds of a machine.
//!
//! A search goes through all worlds, the nearer ones first, so it takes long to come to an ending that
//! is far away. A walk goes on by one choice in each world. Where it comes to an ending, that is one
//! of the endings that a search would find, but perhaps not by a shortest history; and a walk that
//! comes to none says nothing. `PlacedWalks` walks so through the runs that processors make by
//! schedules.
//!
//! Which choices a walk takes is always the same for a machine: the generator has a fixed seed.
//!
//! ```rust
//! let mut walks = Walks::new(alloc, &machine)?;
//! if let Some(entries) = walks.next_walk(alloc, 2_000)? {
//!     let history = trace_of(alloc, &machine, &entries)?; // it comes to an ending
//! }
//! ```
#![tactic(auto)]

mod placed;
mod walks;

pub use placed::PlacedWalks;
pub use walks::Walks;
