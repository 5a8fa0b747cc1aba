//! The law of the merge: logs that processors keep apart make one core run, in the order of their
//! stamps.
//!
//! Each processor knows its own events alone, and handles the letters of another one in the order
//! in which they were posted. Sorted by stamp and processor, the events of all logs are then those
//! of a core run. It ends in the same local states, and is at rest exactly where each processor is
//! and no letter is under way.
//!
//! All of it is definitions and proofs; the functions have an empty body. `law_alone` adds that one
//! processor has one run in rounds.
//!
//! ```rust
//! law_merge(); // from here on: the sorted events of these logs are those of a core run
//! ```
#![tactic(auto)]

ghost use Rattle.std.specs.Prelude.{ℕ, ◌≡◌, ◌≤◌, ◌+◌, ◌↔◌, ◌⊎◌, ◌++◌, true, Some, length};
ghost use Rattle.std.specs.Prelude.{slice_get, List};
ghost use Rattle.std.specs.List.{AllByRecursion};
ghost use Rattle.std.specs.List.Sorted.{IsPermutation};
ghost use Rattle.l4_model.specs.Machine.{Machine};
ghost use Rattle.l4_model.specs.World.{changed};
ghost use Rattle.l4_core_model.specs.Runs.{Event, Run, Ticks, opening_run, at_rest, merged};
ghost use Rattle.l4_core_model.specs.Schedules.{attempts, run};
ghost use Rattle.l4_core_model.specs.Laws.{IsCoreRun};
ghost use Rattle.l4_merge.specs.LocalTraces.{LocalTrace, AddAtMost, AreWholePasts, HasTicked};
ghost use Rattle.l4_merge.specs.LocalTraces.{HasTurned};
ghost use Rattle.l4_merge.specs.LocalTraces.{HaveWorked, HaveTurned, opening_pasts, all_events};
ghost use Rattle.l4_merge.specs.LocalTraces.{added_events};
ghost use Rattle.l4_merge.specs.Merges.{EndsAt, IsMergedRun, HasMergedRun, HasTurnedRun};
ghost use Rattle.l4_merge.specs.Merges.{HaveWholeRun, HasPasts, SortAsMerged, AreAtRest};
ghost use Rattle.l4_merge.specs.Merges.{HasReorderedRun};
ghost use Rattle.l4_merge.specs.Rounds.{IsInRounds, events_of};

/// Let each processor keep a log, and handle the letters from each other one in the order of
/// posting. Then the events of all logs, in order of stamp and processor, are those of a core run.
/// In each of them happened what its processor knows of it. The same holds of the events that the
/// processors add to the end of a core run. The run is at rest exactly where each processor is and
/// all letters are handled. Where the processors took only turns, the run goes on by turns, and no
/// clock changes. Where one clock advanced, the run goes on by that tick. A bound on what each
/// processor adds is a bound on its events in the run.
pub fn law_merge()
    ensures whole { (m : Machine) (pasts : List LocalTrace) → AreWholePasts m pasts →
        HaveWholeRun m pasts }
    ensures sorted { (m : Machine) (pasts : List LocalTrace) → AreWholePasts m pasts →
        SortAsMerged (all_events pasts) }
    ensures count { (es : List Event) → length (merged es) ≡ length es }

    // Each core run has pasts such as the laws here ask for.
    ensures pasts { (m : Machine) (r : Run) → IsCoreRun m r → HasPasts m r }

    ensures opening { (m : Machine) → EndsAt (opening_run m) (opening_pasts m) }
    ensures goes_on { (m : Machine) (before : Run) (olds news : List LocalTrace) →
        EndsAt before olds → HaveWorked m olds news → HasMergedRun m before olds news }
    ensures turns { (m : Machine) (before : Run) (olds news : List LocalTrace) →
        EndsAt before olds → HaveTurned m olds news → HasTurnedRun m before olds news }
    ensures ticks { (m : Machine) (before : Run) (cpu clock : ℕ) (olds : List LocalTrace)
        (old new : LocalTrace) → EndsAt before olds →
        slice_get olds cpu ≡ Some old → HasTicked m cpu clock old new →
        EndsAt (attempts m before (Ticks cpu clock)) (changed (λ p. new) olds cpu) }
    ensures clocks { (m : Machine) (cpu : ℕ) (old new : LocalTrace) → HasTurned m cpu old new →
        new.local.clock ≡ old.local.clock }
    ensures permuted { (m : Machine) (olds news : List LocalTrace) → HaveWorked m olds news →
        IsPermutation (all_events olds ++ merged (added_events olds news)) (all_events news) }
    ensures in_rounds { (m : Machine) (turns : ℕ) (r : Run) → IsInRounds m turns r → IsCoreRun m r }
    ensures shares { (m : Machine) (most : ℕ) (before after : Run) (olds news : List LocalTrace) →
        HaveWorked m olds news → IsMergedRun m before olds news after → AddAtMost most olds news →
        (cpu : ℕ) → events_of cpu after.events ≤ events_of cpu before.events + most }
    ensures core_run { (m : Machine) (before after : Run) (olds news : List LocalTrace) →
        IsCoreRun m before → IsMergedRun m before olds news after → IsCoreRun m after }
    ensures rest { (m : Machine) (pasts : List LocalTrace) (r : Run) → EndsAt r pasts →
        (at_rest m r.system ≡ true) ↔ AreAtRest m pasts }
{}

/// The events of any core run in order of stamp, however they are sorted, are those of a core run.
/// It ends in the same local states, with the same letters of each pair under way. It is at rest
/// exactly where the first run is.
pub fn law_reorder()
    ensures whole { (m : Machine) (r : Run) → IsCoreRun m r → HasReorderedRun m r }
    ensures sorted { (m : Machine) (r : Run) → IsCoreRun m r → SortAsMerged r.events }
{}

/// An event tells at most three steps: those of a send that its receiver takes at once, which begins,
/// is queued and is delivered.
pub fn law_few_steps()
    ensures { (m : Machine) (r : Run) → IsCoreRun m r →
        AllByRecursion (λ event. length event.steps ≤ 3) r.events }
{}

/// On a machine of one processor there is one run in rounds: no letter ever comes, so each event is
/// the only one that is possible. In it each round is one turn of the processor, or, where it has
/// none, a tick to its least deadline. It ends at rest, or with the `most`-th event.
pub fn law_alone()
    ensures { (m : Machine) (turns most : ℕ) (r : Run) → m.cpus ≡ 1 → IsInRounds m turns r →
        length r.events ≤ most →
        (most ≤ length r.events) ⊎ (at_rest m r.system ≡ true) → r ≡ run m most }
{}
