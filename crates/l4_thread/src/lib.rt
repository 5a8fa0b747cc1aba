//! One thread: `Thread` has its registers and its place in its script; `Tcb`, its control block,
//! has phase, send, order and wishes.
//!
//! Each call is one effect of the model on one thread: an instruction runs, an Ipc begins, a
//! message is received, an Ipc fails. Contracts see the model's context and thread, whole: what a
//! call does not name stays. Which threads meet is decided above, by a processor (`l4_core`) and by
//! the audit (`l4_audit`), each in its own way.
//!
//! No call of this crate takes memory. The words of an undecided send stay in the registers of its
//! sender. They are copied out before the registers change, so contracts see the same words
//! throughout.
//!
//! ```rust
//! let mut block = Tcb::new(thread);
//! block.run(&Instr::Set(register, 10));
//! assert!(rt; block.is_ready() && block.view().regs.words[1] == 10);
//! ```
#![tactic(auto)]

pub mod changes;
pub mod orders;
pub mod phases;
pub mod requests;
pub mod sends;
pub mod tcb;
pub mod thread;
