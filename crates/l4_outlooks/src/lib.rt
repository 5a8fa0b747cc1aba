//! The worlds that a machine may come to, whatever its scheduler does and whatever time passes.
//!
//! An entry is a number for what may happen next in a world: a step of a thread, or an owed
//! retarget. An `Outlook` is the world that entries lead to. It tells by which entries a search goes
//! on from there, whether nothing can go on, and the code of the world. Its steps and their
//! conditions are the auditor's (`l4_audit`).
//!
//! ```rust
//! let alone = Alone::new(alloc, &machine)?;
//! let mut outlook = Outlook::new(alloc, &machine)?;
//! for entry in outlook.choices(alloc, &alone)? {
//!     // a search goes on from here by each of these
//! }
//! outlook.take(entry)?;
//! let code = outlook.code(alloc)?;
//! ```
#![tactic(auto)]

mod alone;
mod code;
mod named;
mod outlook;
mod scripts;
mod timed;

pub use alone::Alone;
pub use outlook::{Outlook, law_led};
pub use timed::know_times;
