//! Questions about a machine: which of its endings are asked for, and the text that answers.
//!
//! `answer` searches for all endings of a machine, whatever its scheduler does and whatever time
//! passes, and `placed_answer` for those of the runs that a replay makes by schedules. Of each that
//! is asked for they tell the number and the report, a chart where one is wanted, and last how far the
//! search went and whether there are no more. `asked_trace` is the trace of one of them.
//!
//! Contracts see the bytes: they are those of all endings that the question asks for, and of no
//! others. What is asked of an ending, and what is told of it, is the same for both searches. `laws`
//! says of all histories, and of all core runs, what an answer says of the endings that were found,
//! and `met` says of them what is expected of these. `always_answer` asks no endings, but whether any
//! world on the way meets a condition, and `always_trace` is the trace of a history that comes there.
//!
//! `told_answer` and `told_placed_answer` tell each ending as soon as it is found to a `Teller`, and
//! return what stands behind the endings. The bytes are the same.
//!
//! ```rust
//! let question = Question { stuck: true, wanted: Wanted::NoEnding, ..Question::new(1_000, 100_000) };
//! let answer = answer(alloc, &machine, &question, Beside::nothing(), &mut Unheard)?;
//! // status 0: it never gets stuck
//! ```
#![tactic(auto)]

mod always;
mod answering;
mod asked;
pub mod beside;
mod found;
mod judged;
pub mod laws;
mod listed;
pub mod met;
mod placed_answering;
mod placed_walked;
mod printed;
pub mod question;
mod resting;
mod stuck;
pub mod teller;
mod telling;
mod traces;
mod walked;

pub use always::{always_answer, always_trace};
pub use answering::{answer, told_answer};
pub use judged::Answer;
pub use placed_answering::{placed_answer, told_placed_answer};
pub use traces::asked_trace;
