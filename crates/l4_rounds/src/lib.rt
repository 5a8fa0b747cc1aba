//! Replays that go on by themselves: first what the entries of a list ask for, then rounds in a
//! fixed order. The rounds end when nothing is left to do, or a given number of turns is used up.
//!
//! A round is one turn of each processor, rising. If a round has no event, all clocks below the
//! earliest deadline go on to that deadline. So whoever has found how a run begins need not write
//! how it ends. `choices` has what may happen next behind a replay, each by a number.
//!
//! ```rust
//! let entries = with_rest(alloc, &machine, &[Entry::Turn(1), Entry::Turn(0)], 10_000)?;
//! assert!(rt; entries.len() >= 2);
//! ```
#![tactic(auto)]

pub mod choices;
mod laws;
mod replays;
mod rest;

pub use laws::law_rest;
pub use rest::{walk_behind, with_rest};
