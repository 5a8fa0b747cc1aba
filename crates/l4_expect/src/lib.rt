//! What a report is expected to say: lines that it must have, and lines that it must not have.
//!
//! A text of expectations has a line for each: the line of a report that is asked for, word by
//! word, as `l4_lines` reads it. Behind `never` follows a line that the report must not have. Empty
//! lines, and those that begin with `;`, expect nothing. A text has its expectations in order of
//! its lines, or a first faulty line. `unmet_text` tells those that do not hold, each with what was
//! found in its place. A condition is what no world on the way may tell: such lines, all at once.
//!
//! ```rust
//! let expected = Expectations::parse(alloc, Scope::OneRun, b"thread 1.1 ended ..\n")?;
//! let all = expected.write_unmet(report, &mut lines)?; // no line is appended where all hold
//! ```
#![tactic(auto)]

mod columns;
pub mod conditions;
pub mod expectations;
pub mod judging;
pub mod laws;
mod unmet;
