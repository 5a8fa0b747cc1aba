//! The end of a ring at which letters are taken.
ghost use Rattle.std.specs.Prelude.{◌≡◌, ◌++◌};
ghost use Rattle.rtrb.specs.Ring.{received};
ghost use Rattle.l4_mail.specs.Ways.{given};

use l4_types::letters::Letter;
use rtrb::Consumer;
use std::collections::VecDeque;

/// The end of a ring that letters are popped from, and the letters that a rest popped and that are
/// not taken yet.
#[derive(Drop)]
pub struct Inlet {
    pub ring: Consumer<Letter>,
    pub kept: VecDeque<Letter>,
    pub ghost whole: { received ring ≡ given ring kept.items ++ kept.items },
}

impl Inlet {
    ghost use Rattle.std.specs.Prelude.{◌≡◌, ◌≢◌, ◌⊎◌, ◌↔◌, [], ◌∷◌, ◌++◌, false, not};
    ghost use Rattle.l4_core_model.specs.Runs.{is_empty};
    ghost use Rattle.l4_mail.specs.Ends.{inlet_ring, inlet_taken, inlet_kept, inlet_here};

    /// Whether a letter is kept here.
    pub fn keeps_mail(&self) -> bool
        ensures { result ≡ not (is_empty (inlet_kept self.now)) }
    {
        !self.kept.is_empty()
    }

    /// Whether a letter is here: one that is kept, or one in the ring.
    pub fn has_mail(&mut self) -> bool
        ensures ring { inlet_ring self.new ≡ inlet_ring self.old }
        ensures taken { inlet_taken self.new ≡ inlet_taken self.old }
        ensures kept { inlet_kept self.new ≡ inlet_kept self.old }
        ensures here { (result ≡ false) ↔ (inlet_here self.new ≡ []) }
    {
        !self.kept.is_empty() || !self.ring.is_empty()
    }

    /// Takes the first letter that is here: one that is kept, or else one in the ring.
    #[inline(always)]
    pub fn take(&mut self) -> Letter
        requires { inlet_here self.old ≢ [] }
        ensures ring { inlet_ring self.new ≡ inlet_ring self.old }
        ensures taken { inlet_taken self.new ≡ inlet_taken self.old ++ result ∷ [] }
        ensures kept { (inlet_kept self.old ≡ result ∷ inlet_kept self.new) ⊎
            ((inlet_kept self.old ≡ []) × (inlet_kept self.new ≡ [])) }
    {
        match self.kept.pop_front() {
            Some(letter) => letter,
            None => self.ring.pop_known(),
        }
    }
}
