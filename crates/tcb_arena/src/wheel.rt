//! Armed blocks in 64 linked rings, each with its deadline, and all of them by rising deadline.

ghost use Rattle.std.specs.Prelude.{◌≡◌, ℕ, ◌+◌, ◌<◌, ◌%◌, true, false, IfOk, IfSome, Some};
ghost use Rattle.std.specs.Prelude.{slice_get};
ghost use Rattle.std.specs.Option.{option_map};
ghost use Rattle.l4_core_model.specs.Plain.{put_entry, without_block, due_block};
ghost use Rattle.tcb_arena.specs.Inner.Blocks.{has_entry};
ghost use Rattle.tcb_arena.specs.Inner.Due.{armed_of, none_armed, ring_count, with_entry};
ghost use Rattle.tcb_arena.specs.Inner.Due.{without_entry, without_found, without_first_due};
ghost use Rattle.tcb_arena.specs.Inner.Due.{first_of_ring, AreRings, AreOnce};

use crate::links::Rings;
use crate::wheel::order::{first_later, span_of};
use l4_types::errors::NoMemory;
use std::alloc::Global;
use std::marker::Model;

mod order;

// A block armed for `d` stands in ring `d` modulo this, so blocks of equal deadlines share a ring.
const RINGS: usize = 64;

/// A fixed number of blocks, numbered from 0, some of them armed for a deadline, which is a tick of
/// the caller's clock. A block that is armed for `d` stands in ring `d` modulo 64, after those of
/// its ring that were armed before it. A contract sees the 64 rings, and the plain list that they
/// make. The list has the armed blocks by rising deadline, equal ones in order of arming.
#[derive(Drop)]
pub struct Wheel {
    // By block. It means something only while the block is armed.
    deadlines: Vec<u64>,
    rings: Rings,
    // One list of the armed blocks, by rising deadline, equal ones in order of arming.
    order: Rings,
    // By span: the block that was last armed so far ahead, where the search for a place begins.
    // Any other block would do as well, but the search would take longer.
    latest: Vec<usize>,
    // No block is armed for a deadline before this one.
    floor: u64,
}

impl Model for Wheel {
    ghost use Rattle.tcb_arena.specs.Inner.Due.{Due, due_code, shown_due, IsWheel};

    ghost Value = { Due };

    ghost coded = { due_code };

    ghost view = { λ w. shown_due w.deadlines.items w.rings };

    ghost invariant = { λ w.
        IsWheel w.deadlines.items w.rings w.order w.latest.items w.floor };
}

impl Wheel {
    /// A wheel of this many blocks, none of them armed. No other call takes memory.
    pub fn new(alloc: Global, blocks: usize) -> Result<Wheel, NoMemory>
        ensures { IfOk result (λ wheel. wheel ≡ none_armed blocks) }
    {
        let deadlines = vec![in alloc; 0; blocks]?;
        let rings = Rings::new(alloc, blocks, RINGS)?;
        let order = Rings::new(alloc, blocks, 1)?;
        let latest = vec![in alloc; 0; blocks]?;
        Ok(Wheel {
            deadlines,
            rings,
            order,
            latest,
            floor: u64::MAX,
        })
    }

    /// A copy.
    pub fn try_clone(&self) -> Result<Wheel, NoMemory>
        ensures { IfOk result (λ copy. copy ≡ self.now) }
    {
        Ok(Wheel {
            deadlines: self.deadlines.clone()?,
            rings: self.rings.try_clone()?,
            order: self.order.try_clone()?,
            latest: self.latest.clone()?,
            floor: self.floor,
        })
    }

    /// Whether a block is armed.
    pub fn is_armed(&self, block: usize) -> bool
        requires { block < self.now.blocks }
        ensures { result ≡ has_entry block (armed_of self.now) }
    {
        self.rings.is_linked(block)
    }

    /// Arms a block at the end of the ring of its deadline modulo 64. The block is not armed
    /// (`is_armed`).
    pub fn arm(&mut self, block: usize, deadline: u64)
        requires block { block < self.old.blocks }
        requires free { has_entry block (armed_of self.old) ≡ false }
        ensures rings { self.new ≡ with_entry deadline block self.old }
        ensures armed { armed_of self.new ≡ put_entry (deadline, block) (armed_of self.old) }
    {
        let span = span_of(deadline.saturating_sub(self.floor)).min(self.latest.len() - 1);
        let next = first_later(&self.order, &self.deadlines, &self.latest, deadline, span);
        self.deadlines[block] = deadline;
        self.rings.push_last(ring_of(deadline), block);
        match next {
            Some(next) => self.order.put_before(next, block),
            None => self.order.push_last(0, block),
        }
        self.latest[span] = block;
        self.floor = self.floor.min(deadline);
    }

    /// Disarms a block, if it is armed. All others stay as they stand.
    pub fn disarm(&mut self, block: usize)
        requires { block < self.old.blocks }
        ensures rings { self.new ≡ without_entry block self.old }
        ensures armed { armed_of self.new ≡ without_block block (armed_of self.old) }
        ensures once { AreOnce self.old }
    {
        if !self.rings.is_linked(block) {
            return;
        }
        self.rings.take_out(block);
        self.order.take_out(block);
    }

    /// The least deadline that a block is armed for.
    pub fn least_deadline(&self) -> Option<u64>
        ensures { result ≡ option_map (λ e. e.0) (slice_get (armed_of self.now) 0) }
    {
        let (deadline, _) = self.first_armed()?;
        Some(deadline)
    }

    /// The armed block of the least deadline, if that is at most `now`. Of equal deadlines it is
    /// the one that was armed first.
    #[inline(always)]
    pub fn first_due(&mut self, now: u64) -> Option<usize>
        ensures due { result ≡ due_block now (armed_of self.old) }
        ensures same { self.new ≡ self.old }
        ensures within { IfSome result (λ block. block < self.old.blocks) }
    {
        if now < self.floor {
            return None;
        }
        let (deadline, block) = self.look()?;
        if deadline <= now { Some(block) } else { None }
    }

    /// Disarms the armed block of the least deadline, if that is at most `now`. Of equal deadlines
    /// it is the one that was armed first.
    pub fn pop_due(&mut self, now: u64) -> Option<usize>
        ensures first { result ≡ due_block now (armed_of self.old) }
        ensures rings { self.new ≡ without_found result self.old }
        ensures armed { armed_of self.new ≡ without_first_due now (armed_of self.old) }
        ensures gone { IfSome result (λ block. has_entry block (armed_of self.new) ≡ false) }
    {
        let first = self.first_due(now)?;
        self.disarm(first);
        Some(first)
    }

    /// The first block of a ring, which is below 64: of the blocks in it, that which was armed
    /// first.
    pub fn ring_first(&self, ring: usize) -> Option<usize>
        requires { ring < ring_count }
        ensures first { result ≡ first_of_ring self.now.rings ring }
        ensures rings { AreRings self.now.rings (armed_of self.now) }
    {
        self.rings.first(ring)
    }

    // The first block with its deadline. Raises the floor to that deadline.
    fn look(&mut self) -> Option<(u64, usize)>
        ensures first { result ≡ slice_get (armed_of self.old) 0 }
        ensures same { self.new ≡ self.old }
    {
        let found = self.first_armed();
        match found {
            Some((deadline, _)) => {
                self.floor = deadline;
            }
            None => {
                self.floor = u64::MAX;
            }
        }
        found
    }
}

// The ring of a deadline.
fn ring_of(deadline: u64) -> usize
    ensures value { result ≡ deadline % ring_count }
    ensures within { result < ring_count }
{
    (deadline % RINGS as u64) as usize
}
