//! The lists of one processor, in linked rings: the sends that wait at each block, the ready
//! blocks, and those armed for a deadline.
//!
//! A block is named by its thread's place, a number from 0. Each call acts on plain lists in its
//! contract, with their order; no link shows. A block waits in one list at most, and stands once at
//! most among the ready and among the armed ones. `queue_send`, `push_ready` and `arm` ask for a
//! block that is not there yet. The contracts of `Wheel` also say what becomes of each of its 64
//! rings.
//!
//! No call but `Arena::new` takes memory. No clause says how long a call takes; it is measured:
//!
//! - `first_accepted` looks at the sends before the one that it finds;
//! - `arm` begins at a block that was armed about as far ahead, and goes over those whose deadlines
//!   are between. These are few where such blocks are armed again and again, and all in the worst
//!   case;
//! - every other call takes the same few steps whatever stands in the lists.
//!
//! ```rust
//! let mut arena = Arena::new(alloc, 2)?;
//! arena.queue_send(1, Waiting { block: 0, shown: sender, local: true });
//! assert!(rt; arena.first_accepted(1, &ThreadId::ANY) == Some(0));
//! arena.unqueue_send(0);
//! ```
#![tactic(auto)]

ghost use Rattle.std.specs.Prelude.{◌≡◌, ◌<◌, false, length, map, slice_get, All, IfOk, IfSome};
ghost use Rattle.l4_model.specs.Words.{AnyThread, is_same};
ghost use Rattle.l4_core_model.specs.Plain.{list_of, is_queued, queued, unqueued, first_taken};
ghost use Rattle.l4_core_model.specs.Plain.{made_ready, dropped, popped, armed, disarmed};
ghost use Rattle.l4_core_model.specs.Plain.{due_block};
ghost use Rattle.tcb_arena.specs.Inner.Blocks.{is_ready, is_armed, least_deadline, without_due};
ghost use Rattle.tcb_arena.specs.Inner.Blocks.{empty_lists};
ghost use Rattle.tcb_arena.specs.Inner.Due.{armed_of, ring_count, IsFirstOfRing};

use l4_types::errors::NoMemory;
use l4_types::ids::{GlobalId, ThreadId};
use std::alloc::Global;
use std::marker::Model;

mod iter;
mod links;
mod wheel;

pub use iter::{ArmedBlocks, Blocks, Sends};
use links::Rings;
pub use wheel::Wheel;

/// A send that waits.
#[derive(Clone, Copy)]
pub struct Waiting {
    /// The block of its sender.
    pub block: usize,
    /// The sender that it shows.
    pub shown: GlobalId,
    /// Whether that one is of the receiver's address space.
    pub local: bool,
}

impl Model for Waiting {
    ghost use Rattle.l4_core_model.specs.Plain.{Waiting as PlainWaiting};

    ghost Value = { PlainWaiting };

    ghost view = { λ w. record { block = w.block; shown = w.shown; local = w.local } };

    ghost inverse = { λ w. record { block = w.block; shown = w.shown; local = w.local } };
}

// What a block's send shows while it waits.
#[derive(Clone, Copy)]
struct Sender {
    shown: GlobalId,
    local: bool,
}

fn copied(alloc: Global, senders: &[Sender]) -> Result<Vec<Sender>, NoMemory>
    ensures { IfOk result (λ copy. copy.items ≡ senders.now) }
{
    let mut copy = Vec::with_capacity(alloc, senders.len())?;
    copy.extend_from_slice(senders)?;
    Ok(copy)
}

/// A fixed number of blocks, numbered from 0. A block waits in one list at most, and stands once at
/// most among the ready ones and among the armed ones.
#[derive(Drop)]
pub struct Arena {
    // Ring r has the blocks that wait at block r.
    waiting: Rings,
    senders: Vec<Sender>,
    // One ring.
    ready: Rings,
    wheel: Wheel,
}

impl Model for Arena {
    ghost use Rattle.l4_core_model.specs.Plain.{Plain};

    ghost Value = { Plain };

    ghost use Rattle.tcb_arena.specs.Inner.Shown.{shown_lists, AreBlocks};

    ghost view = { λ a. shown_lists a.waiting a.senders.items a.ready a.wheel };

    ghost invariant = { λ a. AreBlocks a.waiting a.senders.items a.ready a.wheel };
}

impl Arena {
    /// Blocks of which none waits, none is ready and none is armed.
    pub fn new(alloc: Global, blocks: usize) -> Result<Arena, NoMemory>
        ensures { IfOk result (λ arena. arena ≡ empty_lists blocks) }
    {
        let senders = unused_senders(alloc, blocks)?;
        let waiting = Rings::new(alloc, blocks, blocks)?;
        let ready = Rings::new(alloc, blocks, 1)?;
        let wheel = Wheel::new(alloc, blocks)?;
        Ok(Arena {
            waiting,
            senders,
            ready,
            wheel,
        })
    }

    /// A copy.
    pub fn try_clone(&self, alloc: Global) -> Result<Arena, NoMemory>
        ensures { IfOk result (λ copy. copy ≡ self.now) }
    {
        Ok(Arena {
            waiting: self.waiting.try_clone()?,
            senders: copied(alloc, &self.senders)?,
            ready: self.ready.try_clone()?,
            wheel: self.wheel.try_clone()?,
        })
    }

    /// Whether a block waits in a list.
    pub fn is_queued(&self, block: usize) -> bool
        requires { block < length self.now.waiting }
        ensures { result ≡ is_queued self.now block }
    {
        self.waiting.is_linked(block)
    }

    /// Appends a send to the waiting list of a receiver. The sender's block is not queued
    /// (`is_queued`).
    pub fn queue_send(&mut self, receiver: usize, waiting: Waiting)
        requires receiver { receiver < length self.old.waiting }
        requires block { waiting.block < length self.old.waiting }
        requires free { is_queued self.old waiting.block ≡ false }
        ensures { self.new ≡ queued receiver waiting self.old }
    {
        self.senders[waiting.block] = Sender {
            shown: waiting.shown,
            local: waiting.local,
        };
        self.waiting.push_last(receiver, waiting.block);
    }

    /// Removes a block's send from the list that it waits in, if any.
    pub fn unqueue_send(&mut self, block: usize)
        requires { block < length self.old.waiting }
        ensures { self.new ≡ unqueued block self.old }
    {
        self.waiting.take_out(block);
    }

    /// The block of the first send at a receiver that a receive phase with this specifier takes
    /// (manual: Ipc, `FromSpecifier`). Inlined, since usually no send waits, or all are taken.
    #[inline(always)]
    pub fn first_accepted(&self, receiver: usize, spec: &ThreadId) -> Option<usize>
        requires { receiver < length self.now.waiting }
        ensures { result ≡ first_taken spec.now (list_of self.now receiver) }
    {
        match self.waiting.first(receiver) {
            None => None,
            Some(block) if is_any(*spec) => Some(block),
            Some(_) => self.first_accepted_among(receiver, spec),
        }
    }

    // As `first_accepted`, where sends wait.
    fn first_accepted_among(&self, receiver: usize, spec: &ThreadId) -> Option<usize>
        requires { receiver < length self.now.waiting }
        ensures { result ≡ first_taken spec.now (list_of self.now receiver) }
    {
        let mut next = self.waiting.first(receiver);
        for _place in 0..self.senders.len() {
            let block = next?;
            let sender = self.senders[block];
            if spec.takes(sender.shown, sender.local) {
                return Some(block);
            }
            next = self.waiting.after(block);
        }
        None
    }

    /// The blocks whose sends wait at a receiver, in order.
    pub fn waiting_at(&self, receiver: usize) -> Blocks<'_>
        requires { receiver < length self.now.waiting }
        ensures blocks { result ≡ map (λ w. w.block) (list_of self.now receiver) }
        ensures below { All (λ block. block < length self.now.waiting) result }
    {
        Blocks::new(&self.waiting, receiver)
    }

    /// The sends that wait at a receiver, in order.
    pub fn sends_at(&self, receiver: usize) -> Sends<'_>
        requires { receiver < length self.now.waiting }
        ensures { result ≡ list_of self.now receiver }
    {
        Sends::new(&self.waiting, &self.senders, receiver)
    }

    /// The ready blocks, in order.
    pub fn ready_blocks(&self) -> Blocks<'_>
        ensures { result ≡ self.now.ready }
    {
        Blocks::new(&self.ready, 0)
    }

    /// The armed blocks with their deadlines, by rising deadline, equal ones in order of arming.
    pub fn armed_blocks(&self) -> ArmedBlocks<'_>
        ensures { result ≡ self.now.armed }
    {
        ArmedBlocks::new(&self.wheel)
    }

    /// Whether a block is among the ready ones.
    pub fn is_ready(&self, block: usize) -> bool
        requires { block < length self.now.waiting }
        ensures { result ≡ is_ready self.now block }
    {
        self.ready.is_linked(block)
    }

    /// Appends a block to the ready list. It does not stand there (`is_ready`).
    pub fn push_ready(&mut self, block: usize)
        requires block { block < length self.old.waiting }
        requires free { is_ready self.old block ≡ false }
        ensures { self.new ≡ made_ready block self.old }
    {
        self.ready.push_last(0, block);
    }

    /// The first ready block.
    pub fn first_ready(&self) -> Option<usize>
        ensures { result ≡ slice_get self.now.ready 0 }
    {
        self.ready.first(0)
    }

    /// Removes the first ready block.
    pub fn pop_ready(&mut self) -> Option<usize>
        ensures first { result ≡ slice_get self.old.ready 0 }
        ensures rest { self.new ≡ popped self.old }
        ensures gone { IfSome result (λ block. is_ready self.new block ≡ false) }
    {
        self.ready.pop_first(0)
    }

    /// Removes a block from the ready list, if it stands there.
    pub fn drop_ready(&mut self, block: usize)
        requires { block < length self.old.waiting }
        ensures { self.new ≡ dropped block self.old }
    {
        self.ready.take_out(block);
    }

    /// Whether a block is armed.
    pub fn is_armed(&self, block: usize) -> bool
        requires { block < length self.now.waiting }
        ensures { result ≡ is_armed self.now block }
    {
        self.wheel.is_armed(block)
    }

    /// Arms a block for a deadline, a tick of the caller's clock. The block is not armed
    /// (`is_armed`).
    pub fn arm(&mut self, block: usize, deadline: u64)
        requires block { block < length self.old.waiting }
        requires free { is_armed self.old block ≡ false }
        ensures { self.new ≡ armed deadline block self.old }
    {
        self.wheel.arm(block, deadline);
    }

    /// Disarms a block, if it is armed.
    pub fn disarm(&mut self, block: usize)
        requires { block < length self.old.waiting }
        ensures { self.new ≡ disarmed block self.old }
    {
        self.wheel.disarm(block);
    }

    /// The least deadline that a block is armed for.
    pub fn least_deadline(&self) -> Option<u64>
        ensures { result ≡ least_deadline self.now }
    {
        self.wheel.least_deadline()
    }

    /// The armed block of the least deadline, if that is at most `now`. Of equal deadlines it is
    /// the one that was armed first.
    #[inline(always)]
    pub fn first_due(&mut self, now: u64) -> Option<usize>
        ensures due { result ≡ due_block now self.old.armed }
        ensures same { self.new ≡ self.old }
    {
        self.wheel.first_due(now)
    }

    /// Disarms the armed block of the least deadline, if that is at most `now`. Of equal deadlines
    /// it is the one that was armed first.
    pub fn pop_due(&mut self, now: u64) -> Option<usize>
        ensures first { result ≡ due_block now self.old.armed }
        ensures rest { self.new ≡ without_due now self.old }
        ensures gone { IfSome result (λ block. is_armed self.new block ≡ false) }
    {
        self.wheel.pop_due(now)
    }

    /// The first block of ring `ring`, below 64: of the blocks whose deadline is `ring` modulo 64,
    /// the one that was armed first. The plain lists do not determine it; `Arena::wheel` has the
    /// rings.
    pub fn ring_first(&self, ring: usize) -> Option<usize>
        requires { ring < ring_count }
        ensures { IsFirstOfRing self.now ring result }
    {
        self.wheel.ring_first(ring)
    }

    /// The armed blocks in their 64 rings.
    pub fn wheel(&self) -> &Wheel
        ensures blocks { result.now.blocks ≡ length self.now.waiting }
        ensures armed { armed_of result.now ≡ self.now.armed }
    {
        &self.wheel
    }
}

// A sender for each block.
fn unused_senders(alloc: Global, blocks: usize) -> Result<Vec<Sender>, NoMemory>
    ensures { IfOk result (λ senders. length senders.items ≡ blocks) }
{
    let mut senders = Vec::with_capacity(alloc, blocks)?;
    for _ in 0..blocks {
        senders.push(Sender {
            shown: GlobalId::default(),
            local: false,
        })?;
    }
    Ok(senders)
}

// Whether a thread id is anythread.
#[inline(always)]
fn is_any(id: ThreadId) -> bool
    ensures { result ≡ is_same id AnyThread }
{
    id == ThreadId::ANY
}
