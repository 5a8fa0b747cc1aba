//! A machine gone through step by step: what a line asks for, and what is answered to it.
//!
//! A session is a machine and the entries that were done so far, each of which was possible where it
//! stands (`IsSession`). `command_of` reads a line. `reply_to` answers the entries behind it and what
//! is told: both are functions of the machine, the entries and the line. Whatever is told comes from
//! a replay of the entries from the opening on. `law_session` says that the entries stay a session,
//! `law_replay` that a replay of their list has this very history.
//!
//! ```rust
//! let reply = reply_to(alloc, &machine, &listing, form, &[], b"1")?; // `did c0`, its steps, and so on
//! ```
#![tactic(auto)]

pub mod commands;
mod laws;
mod possible;
pub mod replies;

pub use laws::{law_replay, law_session};
