//! Lines that are asked for: of a report, or of any text whose words are parted by spaces.
//!
//! A line is asked for by its words. `*` stands for any one word, `1.1#*` for any send of 1.1, and
//! `..` at the end for the words that are left. `line_fault` judges what may be asked of reports:
//! not the registers of a deleted thread and not the number of a send, in which runs that end in
//! one state may differ.
//!
//! ```rust
//! assert!(rt; line_fault("thread 1.1 deleted 0").is_some());
//! let is_held = has_line("waiting * 9.1", report); // a send waits for 9.1
//! ```
#![tactic(auto)]

pub mod lines;
