//! Histories in compact form: 8 bytes for a step, 24 more for a delivery, and the words of all
//! deliveries in one row. A step names a thread by the slot of its number, of which there are 1,024.
//! What does not fit takes 64 bytes more: an order, a propagated delivery, a step of a thread whose
//! slot another one has, a send of number 2^32 or above, a clock from there on.
//!
//! So a million steps of a run fit in memory. Contracts see a plain list of steps, and the room for
//! more of them: `push` wants room, `reserve` makes it. So room is made before a turn, and a turn
//! itself takes no memory. `Sink` is what takes steps: a history or a plain vector.
//!
//! Memory is taken by `reserve`, and by `extend`, `tell`, `from_steps` and `to_steps`, which make
//! room as they go. No clause says how many bytes a step takes. Memory is also said to be refused
//! where a row would have more than 2^32 elements, since its indexes have 32 bits.
//!
//! ```rust
//! let mut history = History::new(alloc);
//! history.reserve()?; // room for three steps, the most that an event has
//! history.push(StepRef::Wait(thread));
//! assert!(rt; history.len() == 1 && history.begun(0).is_none());
//! ```
#![tactic(auto)]

mod deliveries;
pub mod history;
mod records;
mod rows;
pub mod sink;
pub mod steps;
mod threads;
pub mod visitor;
