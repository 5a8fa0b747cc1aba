//! Time only enables: worlds that differ in time alone, in numbers of sends, and in what no step
//! reads of deleted threads, have the same futures.
//!
//! No condition of a step but a tick asks that a period is *not* over. So what may happen in a
//! world after ticks is told by `next_late`, which asks no clock: a period that is finite is over.
//! It does not depend on time (`law_timeless`), histories are its runs with ticks between the steps
//! (`law_reached_late`, `law_told`), and a world in which nothing is possible late is still
//! (`law_still_late`). A search over worlds may so leave clocks, numbers of sends and the rest of
//! `AreAsGood` out of the code of a world.
//!
//! Runs of `next_late` have no end of time, so of them nothing is asked but that the machine has the
//! processors and the periods that a machine text can give it (`IsTimed`). What a history reaches is
//! known to be so of them too (`law_late_worlds`), and worlds as good as each other go the same ways
//! (`law_late_futures`).
//!
//! All of it is definitions and proofs; the functions have empty bodies.
//!
//! ```rust
//! law_late_futures(); // from here on: worlds as good as each other come to the same
//! ```
#![tactic(auto)]

ghost use Rattle.std.specs.Prelude.{false, Some, List, ℕ, length, ◌+◌, ◌*◌, ◌<◌, ◌≤◌, ◌≡◌, ◌↔◌};
ghost use Rattle.std.specs.List.{AllByRecursion};
ghost use Rattle.std.specs.Option.{option_map};
ghost use Rattle.l4_model.specs.Words.{period_limit, clock_limit};
ghost use Rattle.l4_model.specs.Machine.{Machine};
ghost use Rattle.l4_model.specs.World.{World, opening};
ghost use Rattle.l4_model.specs.Steps.{Step, next};
ghost use Rattle.l4_model.specs.History.{run, reached};
ghost use Rattle.l4_model.specs.Still.{is_tick, late, IsStill};
ghost use Rattle.l4_model.specs.Reached.{AreNamedOnce, WorldFacts};
ghost use Rattle.l4_worlds.specs.Timeless.{timeless, AreAlike};
ghost use Rattle.l4_worlds.specs.Late.{next_late, run_late, no_ticks};
ghost use Rattle.l4_worlds.specs.Inner.Room.{HaveProcessors, IsRoomy, LeadsAlike};
ghost use Rattle.l4_worlds.specs.Histories.{IsTimed, HasRoomFor, IsStillLate, IsUntimed};
ghost use Rattle.l4_worlds.specs.Told.{IsTold};
ghost use Rattle.l4_worlds.specs.Numberless.{AreSimilar, LeadsSimilarly};
ghost use Rattle.l4_worlds.specs.Bare.{bare, AreAsGood, LeadsAsWell, GoesAsWell, GoesAsWellLate};

/// What may happen late does not depend on time.
pub fn law_timeless()
    ensures { (m : Machine) (w : World) (step : Step) →
        next_late m (timeless w) step ≡ option_map timeless (next_late m w step) }
{}

/// What can happen in one of two worlds that differ in time alone can happen in the other one,
/// after ticks if need be, where its clocks leave room for that.
pub fn law_alike()
    ensures { (m : Machine) (w v after : World) (now : ℕ) (step : Step) → HaveProcessors m →
        IsRoomy m v now → AreAlike w v → is_tick step ≡ false → next m w step ≡ Some after →
        LeadsAlike m v step after }
{}

/// What a history reaches is reached late by its steps that are no ticks.
pub fn law_reached_late()
    ensures { (m : Machine) (h : List Step) (w : World) → reached m h ≡ Some w →
        run_late m (opening m) (no_ticks h) ≡ Some (timeless w) }
{}

/// What is reached late is reached, but for time, by a history of the same steps, where before a
/// timeout that is not due yet a clock goes on until it is. Its clocks are at most one longest
/// period for each step.
pub fn law_told()
    ensures { (m : Machine) (steps : List Step) (u : World) → IsTimed m →
        HasRoomFor (length steps) → run_late m (opening m) steps ≡ Some u → IsTold m steps u }
{}

/// What is true of every world that a history reaches is true of every one that is reached late.
pub fn law_late_worlds()
    ensures { (m : Machine) (steps : List Step) (w : World) → IsTimed m →
        run_late m (opening m) steps ≡ Some w → WorldFacts m w }
{}

/// What is possible late is what is possible with all clocks at their last value.
pub fn law_late_now()
    ensures { (m : Machine) (steps : List Step) (w : World) (step : Step) → IsTimed m →
        run_late m (opening m) steps ≡ Some w → is_tick step ≡ false →
        next_late m w step ≡ option_map timeless (next m (late w) step) }
{}

/// Worlds as good as each other have the same late futures, however long.
pub fn law_late_futures()
    ensures { (m : Machine) (steps g h : List Step) (w v u : World) → IsTimed m →
        run_late m (opening m) g ≡ Some w → run_late m (opening m) h ≡ Some v → AreAsGood w v →
        run_late m w steps ≡ Some u → GoesAsWellLate m v steps u }
{}

/// If nothing is possible late in one of them, nothing is in the other one.
pub fn law_late_still_as_good()
    ensures { (m : Machine) (g h : List Step) (w v : World) → IsTimed m →
        run_late m (opening m) g ≡ Some w → run_late m (opening m) h ≡ Some v → AreAsGood w v →
        IsStillLate m w → IsStillLate m v }
{}

/// A world that leaves room for its periods is still exactly where nothing is possible late.
pub fn law_still_late()
    ensures { (m : Machine) (w : World) (now : ℕ) → HaveProcessors m → IsRoomy m w now →
        IsStill m w ↔ IsStillLate m (timeless w) }
{}

/// So is a reached world in which no finite period stands but zero.
pub fn law_still_untimed()
    ensures { (m : Machine) (h : List Step) (w : World) → HaveProcessors m →
        reached m h ≡ Some w → IsUntimed w → IsStill m w ↔ IsStillLate m (timeless w) }
{}

/// What can happen in one of two reached worlds that differ in time and in numbers of sends alone
/// can happen in the other one, by the same step but for the number of its send, after ticks if
/// need be, where its clocks leave room for that.
pub fn law_similar_worlds()
    ensures { (m : Machine) (w v after : World) (now : ℕ) (step : Step) → HaveProcessors m →
        IsRoomy m v now → AreNamedOnce w.owed → AreNamedOnce v.owed → AreSimilar w v →
        is_tick step ≡ false → next m w step ≡ Some after → LeadsSimilarly m v step after }
{}

/// What may happen late does not depend on the registers, the place and the order of what waits of
/// a deleted thread.
pub fn law_bare()
    ensures { (m : Machine) (w : World) (step : Step) →
        option_map bare (next_late m (bare w) step) ≡ option_map bare (next_late m w step) }
{}

/// What can happen in one of two reached worlds that differ in all of these alone can happen in the
/// other one, by the same step but for the number of its send, after ticks if need be, where its
/// clocks leave room for that.
pub fn law_as_good()
    ensures { (m : Machine) (w v after : World) (now : ℕ) (step : Step) → HaveProcessors m →
        IsRoomy m v now → AreNamedOnce w.owed → AreNamedOnce v.owed → AreAsGood w v →
        is_tick step ≡ false → next m w step ≡ Some after → LeadsAsWell m v step after }
{}

/// Such worlds have the same futures: what a history comes to from one of them another one comes to
/// from the other, by the same steps but for ticks and numbers, where the clocks have room for one
/// longest period for each step.
pub fn law_futures()
    ensures { (m : Machine) (steps g h : List Step) (w v u : World) (now : ℕ) → IsTimed m →
        reached m g ≡ Some w → reached m h ≡ Some v →
        AllByRecursion (λ clock. clock ≤ now) v.clocks → AreAsGood w v →
        run m w steps ≡ Some u → now + length (no_ticks steps) * period_limit < clock_limit →
        GoesAsWell m v steps u }
{}

/// Of two such worlds one is still where the other one is, if that leaves room for its periods.
pub fn law_still_as_good()
    ensures { (m : Machine) (g h : List Step) (w v : World) (now : ℕ) → HaveProcessors m →
        reached m g ≡ Some w → reached m h ≡ Some v → IsRoomy m w now → AreAsGood w v →
        IsStill m w → IsStill m v }
{}
