//! What stands in the lists, one after another.

ghost use Rattle.std.specs.Prelude.{◌≡◌, ℕ, ◌+◌, ◌<◌, All, Some, drop, length, map, slice_get};
ghost use Rattle.std.specs.Prelude.{true};
ghost use Rattle.std.specs.Iterator.{YieldsFirst, item_count};
ghost use Rattle.tcb_arena.specs.Inner.Due.{armed_of};
ghost use Rattle.tcb_arena.specs.Inner.Rings.{head_count, is_linked, list_at, AreSound};
ghost use Rattle.tcb_arena.specs.Inner.Shown.{waiting_at};

use crate::links::Rings;
use crate::wheel::Wheel;
use crate::{Sender, Waiting};
use std::marker::Model;

/// Goes over the blocks of a list, in order. Its value in contracts is the list of those that are
/// left.
#[derive(Drop)]
pub struct Blocks<'a> {
    rings: &'a Rings,
    next: Option<usize>,
}

impl<'a> Model for Blocks<'a> {
    ghost use Rattle.std.specs.Prelude.{ℕ, List};

    ghost Value = { List ℕ };

    ghost use Rattle.tcb_arena.specs.Inner.Left.{names_left, IsPlace};

    ghost view = { λ b. names_left b.rings.now b.next };

    ghost invariant = { λ b. IsPlace b.rings.now b.next };
}

impl<'a> Blocks<'a> {
    /// From the first block of a list on.
    pub(crate) fn new(rings: &'a Rings, head: usize) -> Blocks<'a>
        requires { head < head_count rings.now }
        ensures names { result ≡ list_at rings.now head }
        ensures below { All (λ name. name < rings.now.names) result }
        ensures sound { AreSound rings.now }
    {
        Blocks {
            rings,
            next: rings.first(head),
        }
    }

    /// From behind a block on, which stands in a list.
    pub(crate) fn behind(rings: &'a Rings, block: usize) -> Blocks<'a>
        requires block { block < rings.now.names }
        requires there { is_linked rings.now block ≡ true }
        ensures names { (head place : ℕ) → slice_get (list_at rings.now head) place ≡ Some block →
            result ≡ drop (place + 1) (list_at rings.now head) }
        ensures below { All (λ name. name < rings.now.names) result }
        ensures sound { AreSound rings.now }
    {
        Blocks {
            rings,
            next: rings.after(block),
        }
    }
}

impl<'a> Iterator for Blocks<'a> {
    type Item = usize;

    ghost next_gives = { YieldsFirst (λ left. left) };

    ghost remaining = { item_count (λ left. left) };

    fn next(&mut self) -> Option<usize> {
        let block = self.next?;
        self.next = self.rings.after(block);
        Some(block)
    }
}

/// Goes over the sends that wait at a receiver, in order. It is seen as the list of those that are
/// left.
#[derive(Drop)]
pub struct Sends<'a> {
    blocks: Blocks<'a>,
    senders: &'a Vec<Sender>,
}

impl<'a> Model for Sends<'a> {
    ghost use Rattle.std.specs.Prelude.{◌<◌, All, List, length, map};
    ghost use Rattle.l4_core_model.specs.Plain.{Waiting as PlainWaiting};

    ghost Value = { List PlainWaiting };

    ghost use Rattle.tcb_arena.specs.Inner.Shown.{waiting_at};

    ghost view = { λ s. map (waiting_at s.senders.now.items) s.blocks };

    ghost invariant = { λ s. All (λ block. block < length s.senders.now.items) s.blocks };
}

impl<'a> Sends<'a> {
    /// From the first send at a receiver on.
    pub(crate) fn new(waiting: &'a Rings, senders: &'a Vec<Sender>, receiver: usize) -> Sends<'a>
        requires receiver { receiver < head_count waiting.now }
        requires senders { waiting.now.names ≡ length senders.now.items }
        ensures { result ≡ map (waiting_at senders.now.items) (list_at waiting.now receiver) }
    {
        Sends {
            blocks: Blocks::new(waiting, receiver),
            senders,
        }
    }
}

impl<'a> Iterator for Sends<'a> {
    type Item = Waiting;

    ghost next_gives = { YieldsFirst (λ left. left) };

    ghost remaining = { item_count (λ left. left) };

    fn next(&mut self) -> Option<Waiting> {
        let block = self.blocks.next()?;
        let sender = self.senders[block];
        Some(Waiting {
            block,
            shown: sender.shown,
            local: sender.local,
        })
    }
}

/// Goes over the armed blocks with their deadlines, by rising deadline, equal ones in order of
/// arming. It is seen as the list of those that are left.
#[derive(Drop)]
pub struct ArmedBlocks<'a> {
    wheel: &'a Wheel,
    next: Option<(u64, usize)>,
}

impl<'a> Model for ArmedBlocks<'a> {
    ghost use Rattle.std.specs.Prelude.{ℕ, List};

    ghost Value = { List (ℕ × ℕ) };

    ghost use Rattle.tcb_arena.specs.Inner.Due.{armed_of};
    ghost use Rattle.tcb_arena.specs.Inner.Left.{entries_left, IsArmedPlace};

    ghost view = { λ a. entries_left (armed_of a.wheel.now) a.next };

    ghost invariant = { λ a. IsArmedPlace a.wheel.now a.next };
}

impl<'a> ArmedBlocks<'a> {
    /// From the first armed block on.
    pub(crate) fn new(wheel: &'a Wheel) -> ArmedBlocks<'a>
        ensures { result ≡ armed_of wheel.now }
    {
        ArmedBlocks {
            wheel,
            next: wheel.first_armed(),
        }
    }
}

impl<'a> Iterator for ArmedBlocks<'a> {
    type Item = (u64, usize);

    ghost next_gives = { YieldsFirst (λ left. left) };

    ghost remaining = { item_count (λ left. left) };

    fn next(&mut self) -> Option<(u64, usize)> {
        let (deadline, block) = self.next?;
        self.next = self.wheel.after(block);
        Some((deadline, block))
    }
}
