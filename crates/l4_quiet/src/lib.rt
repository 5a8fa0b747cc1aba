//! What a run or a replay comes to where its ending is quiet: no finite period stands but zero.
//!
//! An outcome is quiet exactly where its core run is at rest, and then its world is still. Here that
//! world is known to be an ending of the model: a still world may have a finite period whose end is
//! past the last clock, and no run, replay or gathering ends quiet in such a one.
//!
//! All of it is definitions and proofs; the function has an empty body.
//!
//! ```rust
//! law_quiet_is_untimed(); // from here on: a quiet outcome leaves no finite period
//! ```
#![tactic(auto)]

ghost use Rattle.std.specs.Prelude.{ℕ, List};
ghost use Rattle.l4_model.specs.Machine.{Machine};
ghost use Rattle.l4_core_model.specs.Laws.{IsCoreRun};
ghost use Rattle.l4_core_model.specs.Runs.{IsMachine, Run};
ghost use Rattle.l4_core_model.specs.Schedules.{Entry, replay_entries};
ghost use Rattle.l4_proc.specs.declared.processor.Processor.{Processor};
ghost use Rattle.l4_machine.specs.Gathered.{IsGathered};
ghost use Rattle.l4_machine.specs.Outcomes.{Findings, IsFoundFor, IsOutcomeOf};
ghost use Rattle.l4_quiet.specs.Quiet.{QuietIsUntimed};

/// If the outcome of a run, of a replay, of processors that were gathered, or of any other core run
/// is quiet, no period that is finite and not zero stands in the world that its history reaches.
pub fn law_quiet_is_untimed()
    ensures of_run { (m : Machine) (most : ℕ) (o : Findings) → IsMachine m → IsFoundFor m most o →
        QuietIsUntimed m o }
    ensures of_replay { (m : Machine) (entries : List Entry) (o : Findings) → IsMachine m →
        IsOutcomeOf m (replay_entries m entries) o → QuietIsUntimed m o }
    ensures of_gathered { (m : Machine) (processors : List Processor) (o : Findings) →
        IsMachine m → IsGathered m processors o → QuietIsUntimed m o }
    ensures of_core_run { (m : Machine) (r : Run) (o : Findings) → IsMachine m → IsCoreRun m r →
        IsOutcomeOf m r o → QuietIsUntimed m o }
{}
