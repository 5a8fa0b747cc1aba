//! Where a run ended.
ghost use Rattle.std.specs.Prelude.{◌≡◌};
ghost use Rattle.l4_machine.specs.Outcomes.{compact_findings_of, steps_of};
ghost use Rattle.l4_told.specs.Told.{findings_with};

use l4_machine::{CompactOutcome, RunHistory};
use l4_types::ids::ThreadId;
use l4_types::reports::{Ending, ThreadView};
use l4_types::steps::Name;

/// Where a run ended: its outcome without its history.
#[derive(Drop)]
pub struct FinalState {
    /// The sends that were begun and are undecided, in order of beginning, each with its
    /// destination.
    pub waiting: Vec<(Name, ThreadId)>,
    /// The report of each thread, in order of declaration.
    pub threads: Vec<ThreadView>,
    /// `Quiet` where no processor has anything to do, no letter is under way and no deadline is
    /// armed.
    pub ending: Ending,
    /// How many turns were taken, ticks and letters handled among them.
    pub turns: u64,
}

/// The history of an outcome, and where its run ended.
pub fn parts_of(outcome: CompactOutcome<'_>) -> (RunHistory<'_>, FinalState)
    ensures { findings_with (steps_of result.0) result.1 ≡ compact_findings_of outcome.entry }
{
    let state = FinalState {
        waiting: outcome.waiting,
        threads: outcome.threads,
        ending: outcome.ending,
        turns: outcome.turns,
    };
    (outcome.history, state)
}
