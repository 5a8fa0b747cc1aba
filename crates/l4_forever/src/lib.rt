//! Which threads wait for ever, beside others that go on: what it means, and how a search finds each
//! of them.
//!
//! A thread is stuck for ever where it waits in a send phase, or in a receive phase that takes one
//! thread alone, and in each world that may come from there, whatever the scheduler does and
//! whatever time passes, it still waits in that phase (`IsStuckForEver`). So no history that goes on
//! from there has a step of it (`law_stays`).
//!
//! A search that looks for such threads may not leave one out for ever: a thread that goes round
//! alone would hide the others. So it tries a step alone only where that leads to a state that it
//! has not gone on from (`AreWalked`). Of what it has found, and of the steps between these, each
//! world of which no step leads to one where the thread does anything else is one where it waits for
//! ever (`law_stands_still`). Where the search is whole, there are no others (`law_no_more`).
//!
//! ```rust
//! law_stands_still(); // from here on: who stands still in a graph is stuck for ever
//! ```
#![tactic(auto)]

mod edges;
mod waits;

ghost use Rattle.std.specs.Prelude.{ℕ, ◌≡◌, ◌<◌, true, false, Bool, Some, List};
ghost use Rattle.l4_model.specs.Machine.{Machine};
ghost use Rattle.l4_model.specs.World.{World};
ghost use Rattle.l4_model.specs.Steps.{Step};
ghost use Rattle.l4_model.specs.History.{run};
ghost use Rattle.l4_worlds.specs.Histories.{IsTimed};
ghost use Rattle.l4_explore.specs.Search.{Seen};
ghost use Rattle.l4_futures.specs.Inner.Search.{state_after};
ghost use Rattle.l4_forever.specs.Waits.{wait_at};
ghost use Rattle.l4_forever.specs.Forever.{IsStuckForEver, WaitsForEver};
ghost use Rattle.l4_forever.specs.Inner.Graph.{AreReached, IsGraph, IsWorldAt};
ghost use Rattle.l4_forever.specs.Moves.{AreJustified, IsNeverStuck, StandsStill, moves_at};
ghost use Rattle.l4_forever.specs.declared.edges.Edge.{Edge as FoundEdge};

pub use edges::Edge;
pub use waits::Wait;

/// A thread that is stuck for ever takes no step any more: whatever history goes on, it waits in the
/// phase in which it waits now.
pub fn law_stays()
    ensures { (m : Machine) (h more : List Step) (place : ℕ) (v : World) →
        (s : IsStuckForEver m h place) → run m s.world more ≡ Some v →
        wait_at v place ≡ wait_at s.world place }
{}

/// A thread that stands still at a place of a graph waits for ever there.
pub fn law_stands_still()
    ensures { (m : Machine) (found : List Seen) (edges : List FoundEdge) (thread : ℕ)
        (moves : List Bool) (place : ℕ) (w : World) → IsTimed m → AreReached m found →
        StandsStill m found edges thread moves → moves_at moves place ≡ false →
        IsWorldAt m found place w → WaitsForEver m w thread }
{}

/// Where a whole search finds that a thread may take a step from each place, no history makes it
/// stuck for ever.
pub fn law_no_more()
    ensures { (m : Machine) (found : List Seen) (edges : List FoundEdge) (thread : ℕ)
        (moves : List Bool) → IsTimed m → AreReached m found → IsGraph m found edges →
        AreJustified m found thread moves → ((place : ℕ) → moves_at moves place ≡ true) →
        IsNeverStuck m thread }
{}
