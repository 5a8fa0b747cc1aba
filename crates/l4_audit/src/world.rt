//! A machine at one moment.
ghost use Rattle.std.specs.Prelude.{◌≡◌, ◌<◌, All, length, map, slice_index};
ghost use Rattle.l4_model.specs.World.{list_at};
ghost use Rattle.l4_types.specs.Inner.OwedView.{owed_of};
ghost use Rattle.l4_model.specs.Conditions.{found, found_at, found_by, undecided, receiver_of};

mod copies;
mod deliveries;
mod due;
mod effects;
mod late;
mod looks;
mod opening;
mod possible;
mod receives;
mod retargets;
mod sends;
mod steps;
mod still;
mod takes;
mod views;

use crate::found::{Found, Pending};
use l4_script::machine::Machine;
use l4_thread::tcb::Tcb;
use l4_types::ids::{GlobalId, ThreadId};
use l4_types::owed::Owed;
use l4_types::steps::Name;
use std::marker::Model;
use tcb_arena::{Arena, Blocks};

/// A machine, and its threads in order of declaration, for each the senders that wait at it by
/// their places, the clocks of the processors, and the owed retargets in order of delivery. Of the
/// arena only the waiting lists are used.
#[derive(Drop)]
pub struct World<'m> {
    machine: &'m Machine,
    threads: Vec<Tcb>,
    lists: Arena,
    clocks: Vec<u64>,
    owed: Vec<Owed>,
}

impl<'m> Model for World<'m> {
    ghost use Rattle.std.specs.Prelude.{map};
    ghost use Rattle.l4_types.specs.Inner.OwedView.{owed_of};
    ghost use Rattle.l4_audit.specs.Inner.Audited.{Audited, IsOf, senders_of};

    ghost Value = { Audited };

    ghost view = { λ w. record {
      machine = w.machine.now;
      world = record {
        threads = map (λ b. b.thread) w.threads.items;
        waiting = senders_of w.lists.waiting;
        clocks = w.clocks.items;
        owed = map owed_of w.owed.items;
      };
    } };

    ghost invariant = { λ w. IsOf w.machine.now w.threads.items w.lists.waiting };
}

impl<'m> World<'m> {
    /// The machine.
    pub fn machine(&self) -> &'m Machine
        ensures { result.now ≡ self.now.machine }
    {
        self.machine
    }

    /// The owed retargets, in order of delivery.
    pub fn owed(&self) -> &[Owed]
        ensures { map owed_of result.now ≡ self.now.world.owed }
    {
        self.owed.as_slice()
    }

    /// The places of the senders that wait at the thread at a place, in order.
    pub fn senders_at(&self, place: usize) -> Blocks<'_>
        requires { place < length self.now.machine.threads }
        ensures senders { result ≡ list_at self.now.world.waiting place }
        ensures below { All (λ sender. sender < length self.now.machine.threads) result }
    {
        self.lists.waiting_at(place)
    }

    /// Gives the prover what always holds of it; no code.
    #[inline(always)]
    pub fn facts(&self)
        ensures threads { length self.now.world.threads ≡ length self.now.machine.threads }
        ensures lists { length self.now.world.waiting ≡ length self.now.machine.threads }
    {
        let _ = &self.machine;
    }

    // The clock of a processor, in ticks.
    fn clock(&self, cpu: u8) -> u64
        ensures { result ≡ slice_index self.now.world.clocks cpu }
    {
        self.clocks.get(usize::from(cpu)).copied().unwrap_or(0)
    }

    /// The thread at a place of the order of declaration.
    pub fn found_at(&self, place: usize) -> Option<Found<'_>>
        ensures { result ≡ found_at self.now.machine self.now.world place }
    {
        let declared = self.machine.threads().get(place)?;
        let tcb = self.threads.get(place)?;
        Some(Found {
            place,
            declared,
            tcb,
            clock: self.clock(declared.cpu()),
        })
    }

    /// A declared thread.
    pub fn found(&self, id: GlobalId) -> Option<Found<'_>>
        ensures { result ≡ found self.now.machine self.now.world id }
    {
        self.found_at(self.machine.place_of(id)?)
    }

    /// The thread that an id names, if it names a declared one.
    pub fn found_by(&self, id: ThreadId) -> Option<Found<'_>>
        ensures { result ≡ found_by self.now.machine self.now.world id }
    {
        self.found(id.as_global()?)
    }

    /// A send that was begun and is not decided.
    pub fn undecided(&self, name: Name) -> Option<Pending<'_>>
        ensures { result ≡ undecided self.now.machine self.now.world name }
    {
        let sender = self.found(name.thread())?;
        if sender.tcb.thread().begun() != name.k() {
            return None;
        }
        let send = sender.tcb.send()?;
        Some(Pending { sender, send })
    }

    /// The thread that a send goes to.
    pub fn receiver_of(&self, pending: &Pending) -> Option<Found<'_>>
        ensures { result ≡ receiver_of self.now.machine self.now.world pending.now }
    {
        self.found_by(pending.send.to())
    }
}
