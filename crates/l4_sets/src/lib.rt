//! Persistent sets, found out: of which processors alone a search for ends tries the choices.
//!
//! Of the scripts it is found out once whom each thread may yet post to, from each place on
//! (`Aims`). Of what a processor knows it is found out once for whom its threads wait, and whom it
//! may post to (`Contacts`). With these, and with the ways that are empty, a state has for each
//! processor those that may post to it on an empty way. A set with all of them is persistent
//! (`l4_persistent`). Of such sets a search takes one with the fewest choices.
//!
//! ```rust
//! let aims = Aims::new(alloc, &machine)?;
//! let contacts = aims.contacts(&machine, core);
//! let set = smallest_closed(&posters, &moves); // the choices of these are enough
//! ```
#![tactic(auto)]

mod aims;
mod closed;
mod contacts;
mod processors;

pub use aims::Aims;
pub use closed::smallest_closed;
pub use contacts::Contacts;
pub use processors::Processors;
