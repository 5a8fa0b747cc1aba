//! What can be tried by schedules.
ghost use Rattle.std.specs.Prelude.{ℕ, ◌≡◌, ◌<◌, List, [], Some, Option, IfOk, length, map, take};
ghost use Rattle.l4_explore.specs.Search.{seen_at, AreApart, OfferTheSame, Seen};
ghost use Rattle.l4_explore.specs.Tries.{deepest, AreCoded, LeadOn, Next, State};
ghost use Rattle.l4_explore.specs.Inner.Views.{next_from, state_from};

use crate::found::Found;
use std::alloc::{AllocError, Global};

/// A state that a schedule leads to.
#[derive(Drop)]
pub struct Reached {
    /// Its code: states with equal codes are equal.
    pub code: Vec<u8>,
    /// Whether nothing is left to be done in it.
    pub is_end: bool,
}

/// One more entry, and the state that it leads to.
#[derive(Drop)]
pub struct Choice {
    /// The entry.
    pub entry: u32,
    /// The state.
    pub reached: Reached,
}

/// What can be tried by schedules, lists of numbers. Each schedule leads to a state, or to none if
/// one of its entries is not possible.
pub trait Tries {
    /// The state that a schedule leads to.
    ghost state_of: { Self → List ℕ → Option State };

    /// What is so of the choices of a found state, where the search has gone on from the states
    /// before it: that they are all entries that lead on, or that they are enough for what is
    /// looked for.
    ghost offers: { Self → List Seen → Seen → List Next → Type 0 };

    /// The state of the empty schedule.
    ///
    /// `AllocError`: memory was refused.
    fn opening(&self, alloc: Global) -> Result<Reached, AllocError>
        ensures { IfOk result (λ r. state_of self.now [] ≡ Some (state_from r)) };

    /// The choices by which a search goes on from the found state at a place, in the order of their
    /// entries, each with the state that it leads to. The search has gone on from all states before
    /// it. The schedule of the state has fewer than 1,000,000 entries. What is tried stays the same.
    ///
    /// `AllocError`: memory was refused.
    fn choices(
        &mut self,
        alloc: Global,
        found: &Found,
        place: usize,
    ) -> Result<Vec<Choice>, AllocError>
        requires inside { place < length found.now }
        requires once { AreApart found.now }
        requires reached { state_of self.old (seen_at found.now place).schedule
            ≡ Some (seen_at found.now place).state }
        requires short { length (seen_at found.now place).schedule < deepest }
        ensures leads { IfOk result (λ cs.
            LeadOn (state_of self.old) (seen_at found.now place).schedule 0
            (map next_from cs.items)) }
        ensures offered { IfOk result (λ cs.
            offers self.old (take place found.now) (seen_at found.now place)
            (map next_from cs.items)) }
        ensures same_states { state_of self.new ≡ state_of self.old }
        ensures same_offers { OfferTheSame (offers self.old) (offers self.new) };

    /// States with equal codes are equal.
    ghost coded: { (x : Self) → AreCoded (state_of x) };
}
