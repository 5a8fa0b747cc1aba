//! Persistent sets: of which processors alone the next events have to be tried, where a search asks
//! for ends.
//!
//! Events of different processors are independent: they happen in either order, unless the second
//! handles the very letter that the first has posted. Most states of a machine are the orders in
//! which such events may happen. A set of processors is persistent in a state where nobody else
//! will post to them on an empty way while they do nothing. Then each run to an end may begin with
//! one of their events, and has as many events.
//!
//! Whether a set is persistent is told by what its processors and the others know, and by the
//! scripts: who waits for whom, and who may yet send or give an order to whom.
//!
//! All of it is definitions and proofs; the functions have an empty body.
//!
//! ```rust
//! law_swapped(); // from here on: two such events happen in either order, and lead to the same
//! ```
#![tactic(auto)]

ghost use Rattle.std.specs.Prelude.{ℕ, ◌≡◌, true, Bool, List, Some};
ghost use Rattle.l4_model.specs.Machine.{Machine};
ghost use Rattle.l4_core_model.specs.Laws.{IsCoreRun};
ghost use Rattle.l4_core_model.specs.Runs.{Action, Happened, IsMachine, Run, System, happens};
ghost use Rattle.l4_explore.specs.Inner.Ends.{AreKept};
ghost use Rattle.l4_core_model.specs.Schedules.{Entry};
ghost use Rattle.l4_explore.specs.Search.{IsCut, IsExplored, Seen};
ghost use Rattle.l4_states.specs.Choices.{state_after};
ghost use Rattle.l4_persistent.specs.Endings.{AreAllEndings, AreEndings, AreLookedAt, IsCutOff};
ghost use Rattle.l4_persistent.specs.Inner.Ends.{AreOfSet, MayRest};
ghost use Rattle.l4_persistent.specs.Inner.Posts.{Aims, AreAims, IsClosed, aims_of};
ghost use Rattle.l4_persistent.specs.Persistent.{AreIdle, AreSwapped, BeginsInside, Goes};
ghost use Rattle.l4_persistent.specs.Persistent.{IsPersistent, IsThere, Leads, cpu_of};
ghost use Rattle.l4_persistent.specs.Rests.{AreRestsListed};

/// Events of different processors are independent. Say that an event of one processor happens, and
/// then one of another, which handles no letter that the first one posted on an empty way. Then
/// they happen in the other order too. They tell the same, and lead to the same local states with
/// the same letters of each pair under way.
pub fn law_swapped()
    ensures { (m : Machine) (g : System) (a b : Action) (h k : Happened) →
        (cpu_of a ≡ cpu_of b → ⊥) → happens m g a ≡ Some h → happens m h.system b ≡ Some k →
        IsThere g b → AreSwapped m g a b h k }
{}

/// Say that a set of processors is persistent, and that one of them can do something. Then each run
/// to a state in which they are idle may begin with an event of theirs. It has as many events, and
/// leads to the same local states with the same letters of each pair under way.
pub fn law_begins_inside()
    ensures { (m : Machine) (g : System) (set : ℕ → Bool) (b : Action) (x : Happened)
        (es : List Action) (end : System) → IsPersistent m g set → set (cpu_of b) ≡ true →
        Goes m g b x → Leads m g es end → AreIdle m end set → BeginsInside m g set es end }
{}

/// A set is persistent where it is closed: where nobody outside of it may post to a processor of it
/// on an empty way, as far as their scripts, sends and orders tell.
pub fn law_persistent()
    ensures { (m : Machine) (aims : Aims) (r : Run) (set : ℕ → Bool) → IsMachine m →
        IsCoreRun m r → AreAims m aims → IsClosed m aims r.system set →
        IsPersistent m r.system set }
{}

/// The aims of scripts are computed: none is left out.
pub fn law_aims()
    ensures { (m : Machine) → AreAims m (aims_of m) }
{}

/// The choices of a persistent set are enough for a search that asks for ends: whatever end at rest
/// so many events may lead to from a found state, one choice of the set is nearer to it.
pub fn law_kept()
    ensures { (m : Machine) → IsMachine m → AreKept (MayRest m) (AreOfSet m) }
{}

/// So such a search lists each state at rest that a core run comes to, by no more events, if its
/// ticks go to least deadlines and no clock has gone on as far as `horizon`: of as many events as it
/// went deep, and where it is whole of any number.
pub fn law_rests()
    ensures { (m : Machine) (found : List Seen) (depth : ℕ) (is_whole : Bool) → IsMachine m →
        IsExplored (state_after m) (AreOfSet m) found depth is_whole →
        AreRestsListed m found depth is_whole }
{}

/// It goes on from the opening, and with each state by all choices of a persistent set.
pub fn law_looked_at()
    ensures { (m : Machine) (found : List Seen) (depth : ℕ) (is_whole : Bool) → IsMachine m →
        IsExplored (state_after m) (AreOfSet m) found depth is_whole →
        AreLookedAt m found depth is_whole }
{}

/// The states at rest among them are all endings of such core runs, each by a shortest one.
pub fn law_endings()
    ensures { (m : Machine) (endings : List (List Entry)) (states asked most depth : ℕ)
        (is_whole : Bool) → AreEndings m endings states asked most depth is_whole →
        AreAllEndings m endings depth is_whole }
{}

/// A search is cut off in one of two cases. Some state that it has found takes as many events as it
/// may go deep. Or it has found as many states as it may, and there is one more.
pub fn law_cut_off()
    ensures { (m : Machine) (found : List Seen) (asked most depth : ℕ) (is_whole : Bool) →
        IsMachine m → IsExplored (state_after m) (AreOfSet m) found depth is_whole →
        IsCut (state_after m) (AreOfSet m) found asked most depth →
        IsCutOff m found asked most depth }
{}
