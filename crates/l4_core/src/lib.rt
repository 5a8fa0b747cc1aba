//! One processor of a machine: its turns, what it does with the letters of others, and its clock.
//!
//! A `Core` has the state of its own threads, and of foreign threads what letters have said. A turn
//! is the first duty of a thread, else the first due timeout, else one instruction. Contracts cite
//! the definition: the same steps with the same stamp, the same letters, and the same local state.
//! A letter is refused exactly where it is not lawful, and then nothing changes.
//!
//! Only `Core::new` takes memory, and `EventBuffer::begin`, which makes room in the caller's list.
//! How many instructions a turn takes is measured (docs/BENCHMARKS.md), in no clause. The tests ask
//! a core by hand, in rows of text.
//!
//! ```rust
//! let mut core = Core::new(alloc, &machine, 0)?;
//! while core.can_stamp(0) {
//!     match core.turn() {
//!         Turn::Did { event, letters } => deliver(event, letters),
//!         Turn::Idle => break,
//!     }
//! }
//! ```
#![tactic(auto)]

pub mod event_buffer;
mod known;
mod outbox;
mod places;
mod posted_words;
pub mod processor;
