//! The law of outcomes: a core run has one.
ghost use Rattle.std.specs.Prelude.{◌≡◌};
ghost use Rattle.l4_model.specs.Machine.{Machine};
ghost use Rattle.l4_core_model.specs.Runs.{Run};
ghost use Rattle.l4_machine.specs.Outcomes.{Findings, IsOutcomeOf};

/// Two outcomes of one core run are the same: they have the same history, undecided sends, threads,
/// ending and number of turns.
pub fn law_one_outcome()
    ensures { (m : Machine) (r : Run) (a b : Findings) →
        IsOutcomeOf m r a → IsOutcomeOf m r b → a ≡ b }
{}
