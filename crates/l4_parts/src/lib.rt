//! The parts of states, each known by its number, and what choices do, remembered by the parts that
//! they read.
//!
//! A state is made of parts: what each processor knows, and the letters of each pair. The parts that
//! one place may have are few, however many states there are. So a state is a row of numbers, and
//! what a choice does is found out once for the parts that it reads, and not in each state.
//!
//! ```rust
//! if let Some(event) = known.events.find(&row, number, part, queue) {
//!     known.events.apply(event, &mut row); // the row of the state behind
//! }
//! ```
#![tactic(auto)]

pub mod events;
pub mod parts;
pub mod rows;
