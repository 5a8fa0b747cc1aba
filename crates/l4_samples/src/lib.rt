//! Machine texts that several crates of tests use, with what comes of them, and the marks between
//! which memory is refused.
//!
//! `PING` is the smallest: one word goes from one thread to another. `ACROSS` and `CALLS` have two
//! processors, `endless` as many as are asked for. The traces of the first two stand beside them. The program does not use this crate.
//!
//! `call_begins` and `call_ends` print where a call stands that bench/refusals.sh tries with
//! refused memory.
//!
//! ```rust
//! let machine = Machine::parse(alloc, PING.as_bytes())?;
//! ```
#![tactic(auto)]

use std::alloc::{AllocError, Global};

/// The two header lines and two threads of one processor, of which one sends the other a word.
pub const PING: &str = "l4 1 64
cpus 1
thread 1.1 cpu 0 space 1
set 1 10
tag 0x70001
ipc 2.1 nil never never
thread 2.1 cpu 0 space 2
ipc nil any never never
";

/// The trace of its run.
pub const PING_TRACE: &str = "local 1.1
wait 2.1
local 1.1
begin 1.1#1
queue 1.1#1
deliver 1.1#1 2.1 1.1 1.1 70001 a
local 2.1
local 1.1
";

/// A thread that sends a word, and on another processor one that waits for anybody.
pub const ACROSS: &str = "l4 1 64
cpus 2
thread 1.1 cpu 0 space 1
set 1 10
tag 0x70001
ipc 2.1 nil never never
thread 2.1 cpu 1 space 2
ipc nil any never never
";

/// The trace of a replay in which the wait comes first.
pub const ACROSS_TRACE: &str = "wait 2.1
local 1.1
local 1.1
begin 1.1#1
queue 1.1#1
deliver 1.1#1 2.1 1.1 1.1 74001 a
local 1.1
local 2.1
";

/// A thread calls one of another processor, which answers, again and again.
pub const CALLS: &str = "l4 1 64
cpus 2
thread 1.1 cpu 0 space 1
ipc 2.1 2.1 never never
jump 0
thread 2.1 cpu 1 space 1
ipc nil any never never
ipc last any never never
jump 1
";

/// A machine of `cpus` processors. The first `busy` of them have a thread each that goes on for
/// ever.
pub fn endless(alloc: Global, cpus: u8, busy: u8) -> Result<String, AllocError> {
    let mut text = format!(in alloc; "l4 1 64\ncpus {cpus}\n")?;
    for cpu in 0..busy {
        let number = u32::from(cpu) + 1;
        text.push_str(format!(in alloc;
            "thread {number}.1 cpu {cpu} space 1\njump 0\n"
        )?.as_str())?;
    }
    Ok(text)
}

/// Prints that a call of this name begins. bench/refusals.sh refuses memory from here on up to
/// `call_ends`, and nowhere else.
pub fn call_begins<R: Print>(rt: &R, name: &str) {
    let _printed = println!(rt; "call {name}");
}

/// Prints that the call has come back.
pub fn call_ends<R: Print>(rt: &R) {
    let _printed = println!(rt; "end");
}
