//! Why a step is not possible, in words; which steps are possible instead; and the report of the
//! world before that step.
//!
//! `account_of` tells which step of a history is the first that is not possible, why, and which
//! steps are possible instead. The line of a cause has fixed words, and behind them the value that
//! the world has, as reports and traces spell it. No two causes have one line. Steps are spelled
//! as in a trace. The report is that of the world before the refused step, or after the last step.
//!
//! ```rust
//! let shown = Shown { explain: true, report: false };
//! let account = account_of(alloc, &machine, &history, shown)?;
//! // because the receiver is not receiving but ready
//! // possible wait 2.1
//! ```
#![tactic(auto)]

pub mod accounts;
pub mod reasons;
pub mod worlds;
