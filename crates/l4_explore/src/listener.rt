//! What is told of the ends that a search finds.
ghost use Rattle.std.specs.Prelude.{◌≡◌, ◌<◌, ◌++◌, ◌∷◌, [], Bool, List, MatchResult, length, true, false};
ghost use Rattle.l4_explore.specs.Search.{seen_at, Seen};

use crate::found::Found;
use crate::progress::Unheard;
use std::alloc::{AllocError, Global};

/// What is told of the ends that a search finds, of each as soon as the search has gone on from the
/// state that it was found from.
pub trait Listener {
    /// Which ends it may be told of.
    ghost may_hear: { Self → Seen → Type 0 };

    /// What being told of these ends, in this order, may do to it. `more` says whether it wants to
    /// hear of more.
    ghost hears: { (old new : Self) → (ends : List Seen) → (more : Bool) → Type 0 };

    /// Is told of the end at a place. False if it wants to hear of no more.
    ///
    /// `AllocError`: memory was refused. It is told of no more then.
    fn told(&mut self, alloc: Global, found: &Found, place: usize) -> Result<bool, AllocError>
        requires inside { place < length found.now }
        requires end { (seen_at found.now place).state.is_end ≡ true }
        requires may { may_hear self.old (seen_at found.now place) }
        ensures heard { MatchResult result
            (λ more. hears self.old self.new (seen_at found.now place ∷ []) more)
            (λ _. hears self.old self.new (seen_at found.now place ∷ []) false) }
        ensures same { (seen : Seen) → may_hear self.old seen → may_hear self.new seen };

    /// To be told of no end changes nothing.
    ghost silent: { (x : Self) → hears x x [] true };

    /// Who is told of ends and then of others is told of all of them.
    ghost joined: { (a b c : Self) (front back : List Seen) (more : Bool) →
        hears a b front true → hears b c back more → hears a c (front ++ back) more };
}

impl Listener for Unheard {
    ghost use Rattle.std.specs.Prelude.{refl};

    ghost may_hear = { λ _ _. Unit {0} };

    ghost hears = { λ old new ends more. more ≡ true };

    fn told(&mut self, _alloc: Global, _found: &Found, _place: usize) -> Result<bool, AllocError> {
        Ok(true)
    }

    ghost silent = { λ x. refl };

    ghost joined = { λ a b c front back more before behind. behind };
}
