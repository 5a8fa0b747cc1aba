//! Schedules as lists: the items of a list, and the entries that they spell, read and written.
//!
//! `schedule_of` reads a list, `schedule_in_file` the text of a file, which may have comments,
//! blanks and line ends. `write_schedule` writes a list, `recorded_text` what stands in a file.
//! Contracts see bytes and the entries of a machine. A list means one schedule, or its first fault
//! is named; each entry has one item; what is written is read back (`law_read_back`).
//! `write_list_faults` and `write_file_faults` tell each faulty item, and what may stand there.
//!
//! `l4_machine` says what the entries do.
//!
//! ```rust
//! let entries = schedule_of(alloc, &machine, "0,1:0,t0:24")?;
//! write_schedule(entries.as_slice(), &mut list)?; // `0,1:0,t0:24` again
//! ```
#![tactic(auto)]

pub mod faulty;
pub mod files;
pub mod items;
pub mod laws;
pub mod writing;
