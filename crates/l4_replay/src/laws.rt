//! The law of core runs: what is true of every core run, in whatever order its processors go on.
ghost use Rattle.l4_model.specs.Machine.{Machine};
ghost use Rattle.l4_core_model.specs.Laws.{IsCoreRun};
ghost use Rattle.l4_core_model.specs.Runs.{IsMachine, Run};
ghost use Rattle.l4_replay.specs.CoreRuns.{HasLawfulMergedRun};
ghost use Rattle.l4_merge.specs.Merges.{SortAsMerged};
ghost use Rattle.l4_refines.specs.Laws.{IsLawfulRun};

use l4_merge::law_reorder;
use l4_refines::law_of_core_runs;

/// What is true of every core run from the opening of every machine that a text can declare, of any
/// number of processors, whichever processor takes the next turn and whichever letter under way is
/// handled first. It is a law over the definitions alone: it names no call.
///
/// `lawful`: the steps of the events are a history of the model, each step possible at the world
/// that the earlier ones reach, with the laws of histories; no letter under way is refused where it
/// goes; where the run is at rest, no step but a tick is possible in the world that the history
/// reaches, now or after any ticks; and where no letter is under way and no thread is deleted, that
/// world has of each thread what its own processor has. On a machine of one processor it is what
/// that processor has at every moment, deleted threads too.
///
/// `merged`: the events in order of stamp and processor are those of a core run too, which ends in
/// the same local states, with the same letters under way of each pair of processors, and is at
/// rest exactly where the first one is. So all of `lawful` is true of it.
///
/// `sorted`: any list of the events that is sorted by stamp and processor is the merged one.
pub fn law_core_run()
    ensures lawful { (m : Machine) (r : Run) → IsMachine m → IsCoreRun m r → IsLawfulRun m r }
    ensures merged { (m : Machine) (r : Run) → IsMachine m → IsCoreRun m r →
        HasLawfulMergedRun m r }
    ensures sorted { (m : Machine) (r : Run) → IsCoreRun m r → SortAsMerged r.events }
{
    law_of_core_runs();
    law_reorder();
}
