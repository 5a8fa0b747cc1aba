//! The outcome of a run.
ghost use Rattle.std.specs.Prelude.{ℕ, ◌≡◌, ◌↔◌, IfOk, IsTrue, length, true};
ghost use Rattle.l4_model.specs.History.{IsHistory};
ghost use Rattle.l4_model.specs.World.{Thread};
ghost use Rattle.l4_core_model.specs.Runs.{Run, at_rest, told};
ghost use Rattle.l4_types.specs.declared.reports.Ending.TheVariants.{Quiet};
ghost use Rattle.l4_replay.specs.Inner.Heard.{AreOfWorld};
ghost use Rattle.l4_replay.specs.Inner.Homes.{AreThreads};
ghost use Rattle.l4_machine.specs.Outcomes.{IsOutcomeOf, IsSound, compact_findings_of, findings_of};
ghost use Rattle.l4_machine.specs.Outcomes.{steps_of};

use crate::run_history::RunHistory;
use l4_audit::audit::{AuditFault, check_history};
use l4_history::history::History;
use l4_model::law_begun_then_ended;
use l4_replay::homes::OwnerView;
use l4_replay::waiting::Search;
use l4_script::machine::Machine;
use l4_types::errors::NoMemory;
use l4_types::ids::ThreadId;
use l4_types::reports::{Ending, ThreadView};
use l4_types::steps::{Name, Step};
use std::alloc::Global;

/// What a run did, and where it ended.
#[derive(Drop)]
pub struct Outcome {
    /// The steps of all turns: of a run in order of stamp, and of equal ones by processor; of a
    /// replay in the order of the schedule.
    pub history: Vec<Step>,
    /// The sends that were begun and are undecided, in order of beginning, each with its
    /// destination.
    pub waiting: Vec<(Name, ThreadId)>,
    /// The report of each thread, in order of declaration.
    pub threads: Vec<ThreadView>,
    /// `Quiet` where no processor has anything to do, no letter is under way and no deadline is
    /// armed.
    pub ending: Ending,
    /// How many turns were taken, ticks and letters handled among them.
    pub turns: u64,
}

/// An outcome with its history in compact form, 16 bytes for a step, or in the logs of several
/// processors, which are merged only on demand.
#[derive(Drop)]
pub struct CompactOutcome<'m> {
    /// The steps of all turns, in the order of those of an `Outcome`.
    pub history: RunHistory<'m>,
    /// The sends that were begun and are undecided, in order of beginning, each with its
    /// destination.
    pub waiting: Vec<(Name, ThreadId)>,
    /// The report of each thread, in order of declaration.
    pub threads: Vec<ThreadView>,
    /// `Quiet` where no processor has anything to do, no letter is under way and no deadline is
    /// armed.
    pub ending: Ending,
    /// How many turns were taken, ticks and letters handled among them.
    pub turns: u64,
}

impl CompactOutcome<'_> {
    /// The same outcome, with each step as a value.
    pub(crate) fn into_outcome(self, alloc: Global) -> Result<Outcome, NoMemory>
        ensures { IfOk result (λ o. findings_of o ≡ compact_findings_of self.entry) }
    {
        let mut history = Vec::new(alloc);
        self.history.tell(alloc, &mut history)?;
        Ok(Outcome {
            history,
            waiting: self.waiting,
            threads: self.threads,
            ending: self.ending,
            turns: self.turns,
        })
    }
}

/// The outcome of a run with this history, ending and number of turns. `are_known` says whether the
/// threads are those of the world that the history reaches, unless one is deleted and there are
/// several processors. Else an audit of the history finds them: a processor may differ from the
/// history in a deleted thread, and in one that a letter is still to reach.
pub(crate) fn outcome_of<'m>(
    alloc: Global,
    machine: &Machine,
    history: RunHistory<'m>,
    threads: OwnerView,
    are_known: bool,
    ending: Ending,
    turns: u64,
) -> Result<CompactOutcome<'m>, NoMemory>
    requires { IsHistory machine.now (steps_of history) }
    ensures { IfOk result (λ o. (r : Run) (t : ℕ → Thread) → IsSound machine.now r →
        AreThreads machine.now t threads → (IsTrue are_known → AreOfWorld machine.now r t) →
        steps_of history.entry ≡ told r.events → turns ≡ length r.events →
        (ending ≡ Quiet) ↔ (at_rest machine.now r.system ≡ true) →
        IsOutcomeOf machine.now r (compact_findings_of o)) }
{
    law_begun_then_ended();
    if are_known && threads.have_registers(machine) {
        let waiting = history.waiting(alloc, &Search::new(machine, &threads))?;
        return Ok(CompactOutcome {
            history,
            waiting,
            threads: threads.threads,
            ending,
            turns,
        });
    }
    audited_outcome(alloc, machine, history.into_history(alloc)?, ending, turns)
}

/// The outcome of a run with this history, ending and number of turns, with the undecided sends and
/// the threads that an audit of the history finds.
///
/// `NoMemory`: memory was refused.
pub fn audited_outcome<'m>(
    alloc: Global,
    machine: &Machine,
    history: History,
    ending: Ending,
    turns: u64,
) -> Result<CompactOutcome<'m>, NoMemory>
    requires { IsHistory machine.now history.steps }
    ensures { IfOk result (λ o. (r : Run) → IsSound machine.now r → history.steps ≡ told r.events →
        turns ≡ length r.events →
        (ending ≡ Quiet) ↔ (at_rest machine.now r.system ≡ true) →
        IsOutcomeOf machine.now r (compact_findings_of o)) }
{
    match check_history(alloc, machine, &history) {
        Ok(audit) => Ok(CompactOutcome {
            history: RunHistory::Steps(history),
            waiting: audit.waiting,
            threads: audit.threads,
            ending,
            turns,
        }),
        Err(AuditFault::NoMemory) => Err(NoMemory),
        Err(AuditFault::Refused { .. }) => unreachable!(),
    }
}
