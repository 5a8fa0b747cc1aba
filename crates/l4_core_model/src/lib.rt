//! What one processor does, and what several do together, as definitions: local states, letters,
//! events, core runs.
//!
//! `Turns` has the turn of a processor, `Mail` what it does with each letter, `Runs` what they do
//! together. `Schedules` has the two ways in which the program runs: by a schedule, and in rounds.
//! The merge orders the events of all by stamp.
//!
//! The code is two laws with an empty body: both ways are core runs. That a core run is a history
//! of the model stands in `l4_refines`, that logs make one in `l4_merge`. `proofs/` has worked
//! examples of turns, letters and runs.
//!
//! ```rust
//! law_run_is_core_run(); // from here on: a run in rounds is a core run
//! ```
#![tactic(auto)]

ghost use Rattle.std.specs.Prelude.{ℕ, List};
ghost use Rattle.l4_model.specs.Machine.{Machine};
ghost use Rattle.l4_core_model.specs.Schedules.{replay, run};
ghost use Rattle.l4_core_model.specs.Laws.{IsCoreRun};

/// A run by a schedule is a core run.
pub fn law_replay_is_core_run()
    ensures { (m : Machine) (schedule : List ℕ) → IsCoreRun m (replay m schedule) }
{}

/// A run in rounds is a core run.
pub fn law_run_is_core_run()
    ensures { (m : Machine) (turns : ℕ) → IsCoreRun m (run m turns) }
{}
