//! The end of a ring at which letters are posted.
ghost use Rattle.std.specs.Prelude.{◌<◌};
ghost use Rattle.rtrb.specs.Ring.{producer_capacity};

use crate::bells::Bell;
use l4_types::letters::Letter;
use rtrb::Producer;
use std::alloc::AllocError;
use std::collections::VecDeque;

/// The end of a ring that letters are pushed into, and the letters that wait for room in it.
#[derive(Drop)]
pub struct Outlet {
    pub ring: Producer<Letter>,
    pub outbox: VecDeque<Letter>,
    // That of the processor at the other end.
    pub bell: Bell,
    pub ghost has_places: { 0 < producer_capacity ring },
}

impl Outlet {
    ghost use Rattle.std.specs.Prelude.{◌≡◌, ◌↔◌, ◌⊎◌, ◌≤◌, ◌<◌, ◌+◌, [], ◌∷◌, ◌++◌, OnOk, IsTrue};
    ghost use Rattle.l4_mail.specs.Ends.{outlet_ring, outlet_posted, outlet_waiting, outlet_free, outlet_room};

    /// Makes room for `letters` letters.
    pub fn reserve(&mut self, letters: usize) -> Result<(), AllocError>
        ensures ring { outlet_ring self.new ≡ outlet_ring self.old }
        ensures posted { outlet_posted self.new ≡ outlet_posted self.old }
        ensures room { OnOk result (letters ≤ outlet_room self.new) }
        ensures grown { outlet_room self.old ≤ outlet_room self.new }
    {
        self.outbox.reserve(letters)
    }

    /// Whether there is room for a letter.
    pub fn has_room(&self) -> bool
        ensures { IsTrue result ↔ (0 < outlet_room self.now) }
    {
        self.outbox.len() < self.outbox.capacity()
    }

    /// Puts the letter at the back of the outbox.
    pub fn post(&mut self, letter: Letter)
        requires { 0 < outlet_room self.old }
        ensures ring { outlet_ring self.new ≡ outlet_ring self.old }
        ensures posted { outlet_posted self.new ≡ outlet_posted self.old ++ letter ∷ [] }
        ensures room { outlet_room self.new + 1 ≡ outlet_room self.old }
    {
        let Ok(()) = self.outbox.push_back(letter) else {
            unreachable!()
        };
    }

    /// Moves letters on, in their order, while the ring has room. Those that still wait found no
    /// free place.
    #[inline(always)]
    pub fn flush(&mut self)
        ensures ring { outlet_ring self.new ≡ outlet_ring self.old }
        ensures posted { outlet_posted self.new ≡ outlet_posted self.old }
        ensures room { outlet_room self.old ≤ outlet_room self.new }
        ensures moved { (outlet_waiting self.new ≡ []) ⊎ (outlet_free self.new ≡ 0) }
    {
        if !self.outbox.is_empty() {
            self.move_on();
        }
    }

    // Moves letters from the outbox into the ring, as many as fit, and rings the bell.
    #[inline(never)]
    fn move_on(&mut self)
        ensures ring { outlet_ring self.new ≡ outlet_ring self.old }
        ensures posted { outlet_posted self.new ≡ outlet_posted self.old }
        ensures room { outlet_room self.old ≤ outlet_room self.new }
        ensures moved { (outlet_waiting self.new ≡ []) ⊎ (outlet_free self.new ≡ 0) }
    {
        self.fill();
        self.bell.ring();
    }

    // Moves letters from the outbox into the ring, as many as fit.
    fn fill(&mut self)
        ensures ring { outlet_ring self.new ≡ outlet_ring self.old }
        ensures posted { outlet_posted self.new ≡ outlet_posted self.old }
        ensures room { outlet_room self.old ≤ outlet_room self.new }
        ensures moved { (outlet_waiting self.new ≡ []) ⊎ (outlet_free self.new ≡ 0) }
    {
        for _ in 0..self.ring.slots() {
            let Some(letter) = self.outbox.pop_front() else {
                return;
            };
            self.ring.push_reserved(letter);
        }
    }
}
