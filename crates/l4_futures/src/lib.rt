//! What a search of all worlds tells apart, what it tries, and what it so finds: all endings.
//!
//! A state of such a search is a world without what no later step reads (`law_world_coded`). Of the
//! choices that are possible it leaves out none that an end needs (`law_kept`). What it has found
//! are then all endings to which histories come, each once and by a shortest one
//! (`law_all_endings`), and what is so of none of these is so of no ending at all
//! (`law_none_asked`).
//!
//! All of it is definitions and proofs; the functions have empty bodies.
//!
//! ```rust
//! law_all_endings(); // from here on: what a search has found are all endings
//! ```
#![tactic(auto)]

ghost use Rattle.std.specs.Prelude.{ℕ, ◌≡◌, ◌≤◌, ◌<◌, ◌↔◌, Bool, true, false, Some, List, length};
ghost use Rattle.l4_model.specs.Machine.{Machine};
ghost use Rattle.l4_model.specs.World.{World};
ghost use Rattle.l4_model.specs.Steps.{Step};
ghost use Rattle.l4_model.specs.History.{reached};
ghost use Rattle.l4_model.specs.Still.{IsStill};
ghost use Rattle.l4_worlds.specs.Timeless.{timeless};
ghost use Rattle.l4_worlds.specs.Inner.Room.{HaveProcessors};
ghost use Rattle.l4_worlds.specs.Bare.{AreAsGood};
ghost use Rattle.l4_worlds.specs.Histories.{IsStillLate, IsTimed, IsUntimed};
ghost use Rattle.l4_explore.specs.Tries.{deepest, AreSchedules};
ghost use Rattle.l4_explore.specs.Search.{depth_of, Seen, IsExplored, IsCut};
ghost use Rattle.l4_explore.specs.Inner.Ends.{AreKept};
ghost use Rattle.l4_futures.specs.Inner.Codes.{code_of};
ghost use Rattle.l4_futures.specs.Inner.Ends.{AreWays};
ghost use Rattle.l4_futures.specs.Inner.Search.{end_traces_of, state_after, AreTried, MayEnd};
ghost use Rattle.l4_futures.specs.Endings.{length_of, AreAllEndings, HasLooked, IsEnding, IsListed};
ghost use Rattle.l4_futures.specs.Inner.Asked.{IsNoneListed, IsNoneReached, TellsNoneApart};
ghost use Rattle.l4_futures.specs.Inner.Reported.{AreReportedAlike};
ghost use Rattle.l4_futures.specs.Stuck.{is_stuck_world};

/// Worlds of a machine have the same code exactly where they are as good as each other.
pub fn law_world_coded()
    ensures { (m : Machine) (w v : World) → length w.clocks ≡ length v.clocks →
        (code_of m w ≡ code_of m v) ↔ AreAsGood w v }
{}

/// Worlds of one code come to the same ends in as many steps, and the choices that are tried lose
/// none of these.
pub fn law_ways()
    ensures { (m : Machine) → IsTimed m → AreWays m }
{}

/// Entries are schedules as a search needs them: worlds of one code are one state.
pub fn law_schedules()
    ensures { (m : Machine) → IsTimed m → AreSchedules (state_after m) }
{}

/// The choices that are tried are enough for each end that may be reached.
pub fn law_kept()
    ensures { (m : Machine) → IsTimed m → AreKept (MayEnd m) (AreTried m) }
{}

/// The ends that a search has found are all endings: each listed once, by a shortest history.
pub fn law_all_endings()
    ensures { (m : Machine) (found : List Seen) (depth : ℕ) (is_whole : Bool) → IsTimed m →
        depth ≤ deepest → IsExplored (state_after m) (AreTried m) found depth is_whole →
        AreAllEndings m (end_traces_of m found) depth is_whole }
{}

/// A history comes to an ending exactly where nothing is possible however late.
pub fn law_ending()
    ensures { (m : Machine) (h : List Step) (w : World) → HaveProcessors m →
        reached m h ≡ Some w → IsEnding m h w ↔ IsStillLate m (timeless w) }
{}

/// What a search has looked at: how many worlds, how far from the opening, and what cut it.
pub fn law_looked()
    ensures { (m : Machine) (found : List Seen) (asked most depth : ℕ) (is_whole : Bool) →
        IsTimed m → depth ≤ deepest →
        IsExplored (state_after m) (AreTried m) found depth is_whole → length found ≤ most →
        (is_whole ≡ true → (depth ≡ depth_of found) × (depth < asked)) →
        (is_whole ≡ false → IsCut (state_after m) (AreTried m) found asked most depth) →
        HasLooked m asked most (length found) depth is_whole }
{}

/// Where a search is whole, each history that comes to an end where no finite period stands is told
/// by a listed one.
pub fn law_endings_listed()
    ensures { (m : Machine) (traces : List (List Step)) (depth : ℕ) →
        AreAllEndings m traces depth true → (h : List Step) (w : World) →
        reached m h ≡ Some w → IsStill m w → IsUntimed w → IsListed m traces w (length_of h) }
{}

/// What is the same of worlds as good as each other, and is so of no listed ending, is so of no
/// ending at all: of none of at most `depth` steps, and if the search is whole, of none.
pub fn law_none_asked()
    ensures { (m : Machine) (traces : List (List Step)) (depth : ℕ) (is_whole : Bool)
        (asked : World → Bool) → TellsNoneApart asked → AreAllEndings m traces depth is_whole →
        IsNoneListed m traces asked → IsNoneReached m depth is_whole asked }
{}

/// Of worlds as good as each other either both are stuck or none is.
pub fn law_stuck()
    ensures { TellsNoneApart is_stuck_world }
{}

/// So where no listed ending is stuck, no ending is.
pub fn law_none_stuck()
    ensures { (m : Machine) (traces : List (List Step)) (depth : ℕ) (is_whole : Bool) →
        AreAllEndings m traces depth is_whole → IsNoneListed m traces is_stuck_world →
        IsNoneReached m depth is_whole is_stuck_world }
{}

/// Of worlds as good as each other each thread is reported alike, except for what a deleted one has
/// in its registers, and the same threads wait with sends to the same ones.
pub fn law_reported()
    ensures { (m : Machine) (w v : World) → AreAsGood w v → AreReportedAlike m w v }
{}
