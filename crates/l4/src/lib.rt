//! An emulator of the L4 X.2 Ipc system call, for tests of servers: what a caller needs of the
//! other crates, under one name.
//!
//! A machine text declares threads with their scripts, and `Machine::parse` reads it. `run` lets
//! its processors work on host threads, `replay` in the order of a schedule. Both return an
//! `Outcome`: the history, the undecided sends, the report of each thread, and whether anything was
//! left to do. `replay_compact` takes entries that name each choice, and `replay_then_rest` goes on
//! in rounds behind them. `run_told` and `replay_told` tell the history to a `Listener`, and keep
//! none on one processor: long runs take little memory. `trace` and `read_events` write a history
//! and read it, `check` judges whether steps are a history at all.
//!
//! Contracts see the definitions of the model (docs/MODEL.md). The history of an outcome is one of
//! the machine, and the laws of all histories hold for it. `check` is Ok for histories alone. The
//! host decides which history a run of several processors takes. Of its own the crate has
//! `replay_then_rest`, and `round_trips`, calls that do what theorems say; its `specs` re-export
//! what all these contracts cite. The lines below test a server (the whole test is in
//! `crates/l4_host_tests/src/server.rt`):
//!
//! ```rust
//! let machine = Machine::parse(alloc, text)?;
//! let outcome = run(&rt, alloc, &machine, 1_000, &Open)?;
//! assert!(rt; outcome.ending == Ending::Quiet && outcome.waiting.is_empty());
//! assert!(rt; outcome.threads[0].regs.words[1] == 105); // the server's answer
//! ```
#![tactic(auto)]

mod rests;
pub mod round_trips;

// Machine texts.
pub use l4_script::instructions::{IdFrom, Instr, Ipc, Register, Source};
pub use l4_script::machine::{Declaration, MOST_INSTRUCTIONS, MOST_THREADS, Machine};
pub use l4_script::text::{MOST_BYTES, TextFault, TextFaultKind};
pub use l4_types::operations::Operation;
pub use l4_types::times::Period;

// Runs and replays.
pub use l4_machine::{CompactOutcome, Outcome, RunHistory, replay, replay_compact, run};
pub use l4_proc::gate::{Gate, Open};
pub use l4_replay::{Entry, Listener, MOST_ENTRIES, MOST_EVENTS, MOST_TURNS, RunFault};
pub use l4_told::{FinalState, replay_told, run_told};
pub use l4_types::reports::{Ending, State, ThreadView};
pub use rests::replay_then_rest;

// Audits.
pub use l4_audit::audit::{Audit, AuditFault, check};
pub use round_trips::{AuditedOutcome, audited_replay, audited_run};

// Steps and their traces.
pub use l4_trace::fault::TraceFault;
pub use l4_trace::lines::write_event;
pub use l4_trace::reading::read_events;
pub use l4_trace::traces::trace;
pub use l4_types::errors::{IpcError, NoMemory};
pub use l4_types::ids::{GlobalId, Kind, ThreadId};
pub use l4_types::messages::{MOST_WORDS, Message};
pub use l4_types::registers::{MESSAGE_REGISTERS, Regs};
pub use l4_types::steps::{Delivery, Name, OrderKind, Step, Tick};
pub use l4_types::tags::{MsgTag, TagFault};
