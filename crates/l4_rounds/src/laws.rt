//! How a run ends that goes on in rounds.
ghost use Rattle.std.specs.Prelude.{ℕ, ◌≡◌, [], List};
ghost use Rattle.l4_model.specs.Machine.{Machine};
ghost use Rattle.l4_core_model.specs.Runs.{IsMachine, Run};
ghost use Rattle.l4_core_model.specs.Laws.{IsCoreRun};
ghost use Rattle.l4_core_model.specs.Schedules.{run};
ghost use Rattle.l4_rounds.specs.Ended.{HasEnded};
ghost use Rattle.l4_rounds.specs.ThenRest.{in_rounds, then_rest};

use l4_refines::law_of_core_runs;

/// What is true of the rest, whatever core run it goes on from.
///
/// `core_run`: a core run and the rest that follows it are a core run.
///
/// `ended`: either its turns are used up, or it is at rest. In one case neither need hold: a thread
/// waits for a time of 2^62 ticks or more, which no clock reaches. Then nothing is to be done, and
/// no letter is under way.
///
/// `alone`: with no entries before it, the rest is the run in rounds for `turns` turns.
pub fn law_rest()
    ensures core_run { (m : Machine) (turns : ℕ) (r : Run) →
        IsCoreRun m r → IsCoreRun m (in_rounds turns m r) }
    ensures ended { (m : Machine) (turns : ℕ) (r : Run) → IsMachine m → IsCoreRun m r →
        HasEnded m turns r (in_rounds turns m r) }
    ensures alone { (m : Machine) (turns : ℕ) → then_rest m [] turns ≡ run m turns }
{
    law_of_core_runs();
}
