//! What the manual names, as Rust types: thread ids, tags, times, registers, messages; and steps
//! and letters of this emulator.
//!
//! A value exists exactly where the definition has one: `new` and `from_raw` return None or a fault
//! for all others. Fields are private where not all of their values are lawful, so whoever has a
//! value has a lawful one. Ids and tags have words of two formats, 64 and 32 bits. Contracts see
//! ids, tags and steps of the model.
//!
//! No call of this crate takes memory. The tests compare words and codes with the manual's tables.
//!
//! ```rust
//! let client = GlobalId::new(1, 1)?;               // None for a version whose low six bits are 0
//! let tag = MsgTag::new(7, 1, false)?;             // label 7, one word, no propagation
//! assert_eq!(rt; client.id().raw(), 1 << 32 | 1);
//! assert_eq!(rt; tag.raw(), 0x70001);
//! ```
#![tactic(auto)]

pub mod errors;
pub mod formats;
pub mod ids;
pub mod letter_ref;
pub mod letters;
pub mod message_ref;
pub mod messages;
pub mod operations;
pub mod owed;
pub mod registers;
pub mod reports;
pub mod step_ref;
pub mod steps;
pub mod tags;
pub mod times;
