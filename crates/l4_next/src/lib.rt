//! What may happen next behind a replay: for each choice that can be made, the item that names it
//! and the steps that it would tell.
//!
//! The choices are those of a search (`l4_states`): of each processor the first letter of each
//! poster, the turn of its core, and the tick to its least deadline. Contracts cite them: exactly
//! those that can be made are told, in the order of their numbers, each with the steps of its event.
//! `law_next` says that these are the ones by which a search goes on.
//!
//! ```rust
//! let lines = next_lines(alloc, &machine, &[Entry::Turn(0)])?; // `next c0`, and its steps
//! ```
#![tactic(auto)]

mod laws;
pub mod nexts;

pub use laws::law_next;
