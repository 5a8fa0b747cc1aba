//! What machine texts and traces have in common: lines, their words, and the numbers, threads and
//! names that words spell.
//!
//! A word is read exactly where it spells a value, and each value is written as one word, which is
//! read as that value again. Contracts see lists of bytes: `Words::of(line)` is the words between
//! its spaces, `decimal(word)` the number that they spell. `pieces` fills a line from its end, so
//! no digit is moved; `spelling` appends to a string.
//!
//! Only the calls of `spelling` take memory. That reading is fast is measured (docs/BENCHMARKS.md);
//! no clause says it.
//!
//! ```rust
//! let mut words = Words::of(b"deliver 1.1#1 2.1");
//! assert!(rt; words.next() == Some(b"deliver".as_slice()));
//! assert!(rt; decimal(b"007").is_none() && hexadecimal(b"70001") == Some(0x70001));
//! ```
#![tactic(auto)]

pub mod digits;
pub mod lines;
pub mod names;
pub mod numbers;
pub mod pieces;
pub mod spelling;
pub mod threads;
pub mod words;
