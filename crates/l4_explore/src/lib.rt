//! Breadth-first search. It finds every state that choices lead to, once, with the first schedule of
//! choices that leads there.
//!
//! A search knows by schedules alone what it searches: which state each schedule leads to, and by
//! which entries to go on from there. It tells states apart by their codes, lists of bytes. Where
//! the choices of a state are all entries that lead on, it finds all states (`AreAllStates`). Where
//! they leave out some, but none that an end needs, it finds all ends, each by a shortest schedule
//! (`AreAllEnds`).
//!
//! ```rust
//! let explored = explore(alloc, &mut walk, 10, 100, &mut Unheard)?;
//! let schedule = explored.found.schedule(alloc, 4)?; // of the fifth state
//! ```
#![tactic(auto)]

mod codes;
pub mod found;
pub mod listener;
mod numbers;
mod pieces;
pub mod progress;
mod row_table;
mod rows;
pub mod search;
mod table;
pub mod tries;
