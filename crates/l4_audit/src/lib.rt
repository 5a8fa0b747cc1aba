//! The audit: whether steps are a history of a machine, and if not, which step is the first that is
//! not possible, and why.
//!
//! `check` and `check_history` judge a whole trace, `Auditor` one step after another. They return
//! Ok exactly for histories, with the threads and undecided sends of the world reached, and whether
//! any step but a tick is possible. After a refused step nothing has changed. Then
//! `Auditor::reason` is the first condition of the step's rule that is false, and
//! `Auditor::possible` lists the steps that are possible there.
//!
//! The audit shares no choice with a processor: each step is written in the lines of its rule. A
//! step takes memory only if it begins a send or leaves a retarget owed.
//!
//! ```rust
//! match check(alloc, &machine, steps) {
//!     Ok(audit) => assert!(rt; audit.ending == Ending::Quiet && audit.waiting.is_empty()),
//!     Err(AuditFault::Refused { place }) => println!(rt; "step {place} is not possible")?,
//!     Err(AuditFault::NoMemory) => return Err(NoMemory),
//! }
//! ```
#![tactic(auto)]

pub mod audit;
pub mod auditor;
pub mod found;
mod periods;
pub mod possible;
pub mod reasons;
pub mod waits;
pub mod world;
