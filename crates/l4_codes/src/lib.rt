//! The code of a state of a core run, written from its processors and their letters.
//!
//! Each function here appends one value to a code, as `l4_states` defines it. After refused memory
//! the code is of no more use.
//!
//! ```rust
//! let mut code = Code::new(alloc);
//! put_core(&mut code, core)?; // .. of each processor, and then the letters
//! let bytes = code.into_bytes()?;
//! ```
#![tactic(auto)]

pub mod code;
pub mod ids;
pub mod letters;
pub mod messages;
pub mod processors;
pub mod threads;
