//! The mail between processors: each has a port, by which it posts letters to the others and takes
//! theirs.
//!
//! Two ports are joined by two rings, one each way; they share nothing but these and their bells,
//! and neither a push nor a pop waits. A bell is rung behind letters that were moved on, so that
//! nobody looks into rings in vain. Contracts see what a port has posted to each processor and
//! taken from each: what was taken is the beginning of what was posted, so nothing is lost, comes twice or
//! overtakes. `rest` is given all ports of a fabric. After it, the posted letters are those taken,
//! followed by those kept. After `flush` a letter waits only where no place of its ring was seen
//! free.
//!
//! Only `fabric`, `reserve`, `make_ready` and `rest` take memory. That `flush` and `take` look at a
//! ring anew each time, and `has_mail` where the bell was rung, is tested, also with threads; no
//! clause says it.
//!
//! ```rust
//! let mut ports = fabric(alloc, 2, 64)?;   // two processors, rings of 64 letters
//! ports[0].reserve()?;
//! ports[0].post(1, letter);
//! ports[0].flush();
//! assert!(rt; ports[1].take().is_some());
//! ```
#![tactic(auto)]

mod bells;
mod ends;
pub mod fabric;
mod inlets;
mod lists;
mod outlets;
pub mod ports;
pub mod rests;
mod takes;
mod ways;
