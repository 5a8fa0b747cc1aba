//! Tests of whole machines and of processors at work, also where memory is refused.
//!
//! Processors work one after the other in the hand of a caller, or each on a host thread of its
//! own. Gates hold some of them back. The host decides which history a run takes, so a test looks
//! for what each must have. The history passes its audit, and the audit finds what the outcome
//! reports. `refused` has calls in which bench/refusals.sh refuses memory. What the program does where
//! a stream fails is tried by `.ci/command-lines`.
//!
//! No clause says that several host threads are at work, that they do not wait, or that memory
//! suffices: these tests show it. crates.txt gives them threads, and no leave to wait for one.
//!
//! ```text
//! ./x try l4_host_tests
//! ```
#![tactic(auto)]

#[cfg(test)]
mod gates;
#[cfg(test)]
mod gathers;
#[cfg(test)]
mod nowait;
#[cfg(test)]
mod processors;
#[cfg(test)]
mod refused;
#[cfg(test)]
mod rooms;
#[cfg(test)]
mod round_trips;
#[cfg(test)]
mod runs;
#[cfg(test)]
mod searches;
#[cfg(test)]
mod server;
#[cfg(test)]
mod telling;
