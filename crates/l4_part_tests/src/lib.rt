//! Tests of the calls of single crates. They stand here since a crate with tests of its own is
//! proved twice.
//!
//! Most are rows of text that drive one processor by hand: lawful and unlawful letters, sessions of
//! several processors, retargets, clocks and stamps at 2^62. The others try ports, histories,
//! values, texts, traces, and a search that leaves out choices. `refused` marks calls in which
//! bench/refusals.sh refuses memory.
//!
//! What a contract says needs no test. These tests show what no contract says: that a call succeeds
//! if memory is ample, and that a definition says what was meant.
//!
//! ```text
//! ./x try l4_part_tests
//! ```
#![tactic(auto)]

#[cfg(test)]
mod counters;
#[cfg(test)]
mod histories;
#[cfg(test)]
mod ports;
#[cfg(test)]
mod refused;
#[cfg(test)]
mod retargets;
#[cfg(test)]
mod rows;
#[cfg(test)]
mod sessions;
#[cfg(test)]
mod texts;
#[cfg(test)]
mod traces;
#[cfg(test)]
mod unlawful;
#[cfg(test)]
mod values;
