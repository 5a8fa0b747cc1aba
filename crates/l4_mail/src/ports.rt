//! A processor's port.
ghost use Rattle.std.specs.Prelude.{◌≡◌, ◌≤◌, false, true, map, vec_len};
ghost use Rattle.l4_model.specs.Machine.{most_processors};
ghost use Rattle.l4_mail.specs.Ends.{AreReady, HasNoWay, ring_in, ring_out};
ghost use Rattle.l4_mail.specs.Inner.Takes.{NoneIsHere};

use crate::bells::Bell;
use crate::inlets::Inlet;
use crate::outlets::Outlet;
use crate::{ends, takes};
use l4_types::errors::NoMemory;
use l4_types::letters::Letter;

/// A processor's place in a fabric. It posts letters to the other processors and takes those that
/// they posted to it.
#[derive(Drop)]
pub struct Port {
    pub(crate) cpu: u8,
    // Whether there is a way to another processor. In a fabric of one there is none, and a turn need
    // not look for it.
    pub(crate) linked: bool,
    // Whether each outbox is empty and has room for two letters: then a turn need not see to it.
    pub(crate) ready: bool,
    // Whether no letter was at any inlet when they were looked at last. Then nobody need look again
    // before the bell is rung.
    pub(crate) quiet: bool,
    pub(crate) bell: Bell,
    // How many times the bell was rung before the inlets were looked at last.
    pub(crate) heard: usize,
    // By the processor that the letters go to, none for its own.
    pub(crate) outlets: Vec<Option<Outlet>>,
    // By the processor that the letters come from, none for its own.
    pub(crate) inlets: Vec<Option<Inlet>>,
    pub ghost few: { (vec_len outlets ≤ most_processors) × (vec_len inlets ≤ most_processors) },
    pub ghost ways: { linked ≡ false → HasNoWay (map ring_out outlets.items)
        (map ring_in inlets.items) },
    pub ghost prepared: { ready ≡ true → AreReady outlets.items },
    pub ghost silent: { quiet ≡ true → NoneIsHere inlets.items },
}

impl Port {
    ghost use Rattle.std.specs.Prelude.{ℕ, ◌≡◌, ◌↔◌, ◌⊎◌, ◌≤◌, ◌<◌, [], false, OnOk, IfSome, IfNone, IsTrue};
    ghost use Rattle.l4_mail.specs.Ports.{posted_to, taken_from, kept_from, here_from, waiting_to, free_to, room_to, fabric_size, place, carried, account, HasWayTo, IsWay, IsWhole, IsAsBefore, HasPosted, HasTaken};

    /// The number of the processor.
    pub fn cpu(&self) -> u8
        ensures { result ≡ self.now.cpu }
    {
        self.cpu
    }

    /// How many processors its fabric has.
    pub fn fabric_size(&self) -> usize
        ensures { result ≡ fabric_size self.now }
    {
        self.outlets.len()
    }

    /// Makes room for two letters to each other processor. Where memory is refused, no letter is
    /// lost, and what was posted and taken stays.
    pub fn reserve(&mut self) -> Result<(), NoMemory>
        ensures same { IsAsBefore self.old self.new }
        ensures room { OnOk result ((to : ℕ) → HasWayTo self.new to → 2 ≤ room_to self.new to) }
    {
        self.ready = false;
        for end in self.outlets.iter_mut() {
            ends::reserve(end, 2)?;
        }
        Ok(())
    }

    /// Makes room for two letters to each other processor, and moves letters on, as `reserve` and
    /// `flush` do, in one pass. Where memory is refused, no letter is lost.
    #[inline(always)]
    pub fn make_ready(&mut self) -> Result<(), NoMemory>
        ensures same { IsAsBefore self.old self.new }
        ensures room { OnOk result ((to : ℕ) → HasWayTo self.new to → 2 ≤ room_to self.new to) }
        ensures moved { OnOk result
            ((to : ℕ) → (waiting_to self.new to ≡ []) ⊎ (free_to self.new to ≡ 0)) }
    {
        if !self.linked {
            return Ok(());
        }
        if self.ready {
            return Ok(());
        }
        self.prepare()
    }

    // Does what `make_ready` promises, and notes whether an outbox still has letters.
    #[inline(never)]
    fn prepare(&mut self) -> Result<(), NoMemory>
        ensures same { IsAsBefore self.old self.new }
        ensures room { OnOk result ((to : ℕ) → HasWayTo self.new to → 2 ≤ room_to self.new to) }
        ensures moved { OnOk result
            ((to : ℕ) → (waiting_to self.new to ≡ []) ⊎ (free_to self.new to ≡ 0)) }
    {
        self.ready = false;
        for end in self.outlets.iter_mut() {
            ends::make_ready(end, 2)?;
        }
        self.ready = !ends::any_waits(&self.outlets);
        Ok(())
    }

    /// Whether there is room for a letter to the processor.
    pub fn has_room(&self, to: u8) -> bool
        ensures { IsTrue result ↔ (0 < room_to self.now to) }
    {
        match self.outlets.get(usize::from(to)) {
            Some(end) => ends::has_room(end),
            None => false,
        }
    }

    /// Posts a letter to another processor. It waits in the outbox until `flush` moves it on. There
    /// has to be room for it.
    pub fn post(&mut self, to: u8, letter: Letter)
        requires room { 0 < room_to self.old to }
        ensures posted { HasPosted self.old self.new to letter }
    {
        self.ready = false;
        ends::post(&mut self.outlets[usize::from(to)], letter);
    }

    /// Moves the letters of each outbox on, in their order, while its ring has room. A letter that
    /// still waits found no free place in its ring.
    #[inline(always)]
    pub fn flush(&mut self)
        ensures same { IsAsBefore self.old self.new }
        ensures moved { (to : ℕ) → (waiting_to self.new to ≡ []) ⊎ (free_to self.new to ≡ 0) }
    {
        self.ready = false;
        for end in self.outlets.iter_mut() {
            ends::flush(end);
        }
    }

    /// Whether it keeps a letter: one that a rest left here and that was not taken since.
    pub fn keeps_mail(&self) -> bool
        ensures { (result ≡ false) ↔ ((from : ℕ) → kept_from self.now from ≡ []) }
    {
        takes::keeps_mail(&self.inlets)
    }

    /// Whether there is a letter to take. Where there is none, none is kept, and no ring had one
    /// when it was last looked at.
    #[inline(always)]
    pub fn has_mail(&mut self) -> bool
        ensures same { IsAsBefore self.old self.new }
        ensures none { result ≡ false → (from : ℕ) → kept_from self.old from ≡ [] }
        ensures here { (result ≡ false) ↔ ((from : ℕ) → here_from self.new from ≡ []) }
    {
        if !self.linked {
            return false;
        }
        let rung = self.bell.times();
        if self.quiet && rung == self.heard {
            return false;
        }
        self.heard = rung;
        self.look()
    }

    // Whether there is a letter to take, by a look into each ring.
    #[inline(never)]
    fn look(&mut self) -> bool
        ensures same { IsAsBefore self.old self.new }
        ensures none { result ≡ false → (from : ℕ) → kept_from self.old from ≡ [] }
        ensures here { (result ≡ false) ↔ ((from : ℕ) → here_from self.new from ≡ []) }
    {
        self.quiet = false;
        let has_mail = takes::has_mail(&mut self.inlets);
        self.quiet = !has_mail;
        has_mail
    }

    /// Takes the next letter, and gives it with the processor that posted it: kept letters first,
    /// then those in the rings, each in order of the posters' numbers. The letters of one processor
    /// come in the order in which it posted them.
    #[inline(always)]
    pub fn take(&mut self) -> Option<(u8, Letter)>
        ensures some { IfSome result (λ r. HasTaken self.old self.new r.0 r.1) }
        ensures none { IfNone result (IsAsBefore self.old self.new) }
        ensures kept { IfNone result ((from : ℕ) → kept_from self.old from ≡ []) }
        ensures here { IfNone result ((from : ℕ) → here_from self.new from ≡ []) }
    {
        self.quiet = false;
        let from = takes::next_inlet(&mut self.inlets)?;
        Some((from as u8, ends::take(&mut self.inlets[from])))
    }
}
