//! Who waits for whom in the world that an audit has come to, and which threads wait for each other
//! in a circle.
//!
//! A thread waits while it has an undecided send, and while it is in a receive phase. Its partner
//! is the send's destination, unless that accepts the send now, or the one thread that the receive
//! phase is closed for. So each thread has at most one partner, and circles are found by following
//! it. A circle is a *deadlock* where none of its threads can go on by any step, now or after any
//! ticks. Nor may an order be undone or a retarget owed. Other threads that still run may yet
//! delete or cancel one of its threads, or send in the name of one. A send of time zero is *held*
//! while its receiver is in a call to another processor that would accept it afterwards.
//!
//! ```rust
//! let mut lines = Vec::new(alloc);
//! write_waits(alloc, auditor, &mut lines)?;
//! // waits 1.1 2.1 send
//! // waits 2.1 1.1 send
//! // deadlock 1.1 2.1
//! ```
#![tactic(auto)]

pub mod circles;
pub mod deadlocks;
pub mod held;
pub mod lines;
