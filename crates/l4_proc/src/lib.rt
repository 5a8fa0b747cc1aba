//! A processor at work: its core, its port to the others, and the log of what it did; alone or on a
//! host thread of its own.
//!
//! `assemble` makes the processors of a machine, `work` lets one take turns, `work_together`
//! several at the same time. Contracts see a core, a port and a log: what the log has is what the
//! core did over the letters taken, and what was posted is exactly theirs. `work` returns why it
//! stopped. A `Gate` is asked before each turn, and may hold a processor back.
//!
//! That several host threads are at work, and which processor goes first, is up to the host: the
//! tests see it, no clause says it. The tests also call `work` in threads that may not wait.
//!
//! ```rust
//! let mut processors = assemble(alloc, &machine, 64)?;
//! let stop = processors[0].work(100, &Open);           // Used, Idle, NoMemory, Mail or Stamp
//! assert!(rt; stop == Stop::Idle && processors[0].turns() <= 100);
//! ```
#![tactic(auto)]

pub mod assembly;
pub mod choice;
mod end_rows;
pub mod gate;
pub mod log;
pub mod processor;
pub mod resting;
pub mod stops;
pub mod together;
pub mod worker;
