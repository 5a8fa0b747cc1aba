//! What no world on the way may meet: which histories meet a condition, and what a search has to
//! look at so that it finds one of them.
//!
//! A condition of worlds, as that two threads hold a lock at once, is never met where no history
//! comes to a world that meets it, whatever the scheduler does and whatever time passes
//! (`IsNeverMet`): that it does not hold is an invariant. It depends on what it reads of each thread
//! alone (`Reads`): states, ErrorCodes, senders, registers, undecided sends.
//!
//! A search for such a world may tell a step alone that nobody can disturb, though only one that
//! writes nothing that the condition reads (`goes_unseen`), and only where it leads to a state that
//! the search has not gone on from: else a thread that goes round alone would hide the others
//! (`AreWatched`). Where such a search is whole, and no world that it has found meets the
//! condition, no history does (`law_never_met`). Where one does, the history told of it meets the
//! condition in its last world (`law_met`). That history need not be a shortest one, for a step
//! that was told alone may be one that the condition does not need. A search that tries all steps
//! finds a shortest one, and where it was cut, none of at most as many steps as were tried is left
//! (`law_shortest`, `law_not_met_within`).
//!
//! All of it is definitions and proofs; the functions have empty bodies. `l4_always` searches so.
//!
//! ```rust
//! law_never_met(); // from here on: what no found world meets, no history meets
//! ```
#![tactic(auto)]

ghost use Rattle.std.specs.Prelude.{ℕ, ◌≡◌, ◌+◌, ◌≤◌, Bool, true, Some, List, length};
ghost use Rattle.l4_model.specs.Machine.{Machine};
ghost use Rattle.l4_model.specs.World.{World};
ghost use Rattle.l4_model.specs.Steps.{Step};
ghost use Rattle.l4_worlds.specs.Late.{next_late};
ghost use Rattle.l4_worlds.specs.Histories.{IsTimed};
ghost use Rattle.l4_explore.specs.Tries.{deepest};
ghost use Rattle.l4_explore.specs.Search.{Seen, seen_at, IsExplored};
ghost use Rattle.l4_futures.specs.Choices.{world_after};
ghost use Rattle.l4_futures.specs.Inner.Asked.{TellsNoneApart};
ghost use Rattle.l4_futures.specs.Inner.Search.{state_after};
ghost use Rattle.l4_futures.specs.Traces.{trace_along};
ghost use Rattle.l4_invariants.specs.Inner.Reads.{Reads, goes_unseen, AreReadAlike, IsReadBy};
ghost use Rattle.l4_invariants.specs.Invariants.{
  IsNeverMet,
  IsNotMetWithin,
  IsShortest,
  MeetsAtLast,
};
ghost use Rattle.l4_invariants.specs.Inner.Searched.{
  AreAllTried,
  AreWatched,
  IsFirstMet,
  IsNoneMet,
};

/// A step that goes unseen changes nothing that the condition reads.
pub fn law_unseen()
    ensures { (m : Machine) (reads : Reads) (w v : World) (step : Step) →
        goes_unseen m reads w step ≡ true → next_late m w step ≡ Some v →
        AreReadAlike m reads w v }
{}

/// Where a whole search has found no world that meets a condition, no history meets it.
pub fn law_never_met()
    ensures { (m : Machine) (reads : Reads) (condition : World → Bool) (found : List Seen)
        (depth : ℕ) → IsTimed m → TellsNoneApart condition → IsReadBy m reads condition →
        IsExplored (state_after m) (AreWatched m reads) found depth true →
        IsNoneMet m found condition → IsNeverMet m condition }
{}

/// The history of entries that lead to a world which meets a condition meets it in its last world.
pub fn law_met()
    ensures { (m : Machine) (condition : World → Bool) (entries : List ℕ) (w : World) →
        IsTimed m → TellsNoneApart condition → length entries ≤ deepest + 1 →
        world_after m entries ≡ Some w → condition w ≡ true →
        MeetsAtLast m condition (trace_along m entries) }
{}

/// Where a search tries all that is possible, the history of the first world that meets a condition
/// is a shortest one that does.
pub fn law_shortest()
    ensures { (m : Machine) (condition : World → Bool) (found : List Seen) (depth place : ℕ)
        (is_whole : Bool) → IsTimed m → TellsNoneApart condition → depth ≤ deepest →
        IsExplored (state_after m) (AreAllTried m) found depth is_whole →
        IsFirstMet m found condition place →
        IsShortest m condition (trace_along m (seen_at found place).schedule) }
{}

/// Where none meets it, no history of at most as many steps as were tried does.
pub fn law_not_met_within()
    ensures { (m : Machine) (condition : World → Bool) (found : List Seen) (depth : ℕ)
        (is_whole : Bool) → IsTimed m → TellsNoneApart condition →
        IsExplored (state_after m) (AreAllTried m) found depth is_whole →
        IsNoneMet m found condition → IsNotMetWithin m condition depth }
{}
