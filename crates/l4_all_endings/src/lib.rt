//! The endings of a machine, whatever its scheduler does and whatever time passes.
//!
//! An ending is a world in which nothing but clocks can go on. A breadth-first search goes through
//! the worlds that steps lead to. Of worlds that are as good as each other it looks at one: they
//! differ in time, in numbers of sends, and in what no step reads of deleted threads. Where nobody
//! can disturb a thread's next step, it tries no other step. So it finds each ending, by a shortest
//! history.
//!
//! ```rust
//! let found = all_endings(alloc, &machine, 1_000, 100_000, &mut Unheard)?;
//! for entries in &found.endings {
//!     let history = trace_of(alloc, &machine, entries)?; // it passes the audit
//! }
//! ```
#![tactic(auto)]

mod search;
mod traces;
mod tried;
mod way;

pub use search::{FoundEndings, Looked, all_endings, all_endings_telling};
pub use traces::trace_of;
pub use tried::{choice_by, reached_state};
pub use way::Way;
