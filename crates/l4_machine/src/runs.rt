//! Runs of a machine by host threads.
ghost use Rattle.std.specs.Prelude.{◌≡◌, ◌<◌, ◌≤◌, ◌↔◌, ◌⊎◌, IfErr, IfOk, IsErrOf, Some};
ghost use Rattle.std.specs.Prelude.{None, map};
ghost use Rattle.l4_replay.specs.Entries.{entries_fault, entry_from, most_turns};
ghost use Rattle.l4_replay.specs.Entries.{turns_fault};
ghost use Rattle.l4_machine.specs.Outcomes.{IsCompactOutcome, IsCompactReplay, IsOutcome};
ghost use Rattle.l4_machine.specs.Outcomes.{IsTrueOf, compact_findings_of, findings_of};

use crate::outcome::{CompactOutcome, Outcome};
use crate::team::Team;
use l4_proc::gate::Gate;
use l4_replay::{Entry, MOST_TURNS, RunFault};
use l4_script::machine::Machine;
use l4_types::errors::NoMemory;
use std::alloc::Global;
use std::thread::Threads;

/// Runs a machine for `turns` turns, 1 to 1,000,000, or until nothing is left to do, in rounds. In
/// a round each processor takes at most the turns that are left divided by the number of
/// processors, rounded up: mail first, else its core's turn. In rounds where two processors or more
/// have something to do, they may work at the same time, each in a host thread of its own
/// (`work_together`). If all are idle and no letter is under way, each clock below the least
/// deadline of all advances to it; each such tick counts as a turn. If there is no deadline, the
/// run ends. It also ends after the round, or the ticks, that use up its turns; these may be one
/// more for each processor but one. The gate is asked before each attempt at a turn. The history is
/// in order of stamp, and of equal ones by processor.
///
/// Two runs of several processors may differ, since which letter comes first is up to the threads.
/// Each is a history of the machine.
///
/// `Turns`: the number of turns is 0 or above 1,000,000. `NoMemory`: else, where memory was
/// refused.
pub fn run<R: Threads + Sync, G: Gate + Sync>(
    rt: &R,
    alloc: Global,
    machine: &Machine,
    turns: u64,
    gate: &G,
) -> Result<Outcome, RunFault>
    ensures ok { IfOk result (IsOutcome machine.now turns) }
    ensures headline { IfOk result (λ o. IsTrueOf machine.now (findings_of o)) }
    ensures err { IfErr result (λ fault. (fault ≡ RunFault.NoMemory) ⊎
        (turns_fault turns ≡ Some fault)) }
    ensures range { IsErrOf result RunFault.Turns ↔ ((turns ≡ 0) ⊎ (most_turns < turns)) }
{
    let outcome = run_compact(rt, alloc, machine, turns, gate)?;
    Ok(outcome.into_outcome(alloc)?)
}

/// Runs a machine as `run` does, with the same outcome and the same faults, and keeps the history
/// in compact form.
#[tactic(auto, using(crate::proofs::Outcomes::run_is_true))]
pub fn run_compact<'m, R: Threads + Sync, G: Gate + Sync>(
    rt: &R,
    alloc: Global,
    machine: &'m Machine,
    turns: u64,
    gate: &G,
) -> Result<CompactOutcome<'m>, RunFault>
    ensures ok { IfOk result (IsCompactOutcome machine.now turns) }
    ensures headline { IfOk result (λ o. IsTrueOf machine.now (compact_findings_of o)) }
    ensures err { IfErr result (λ fault. (fault ≡ RunFault.NoMemory) ⊎
        (turns_fault turns ≡ Some fault)) }
    ensures range { IsErrOf result RunFault.Turns ↔ ((turns ≡ 0) ⊎ (most_turns < turns)) }
{
    if turns == 0 || turns > MOST_TURNS {
        return Err(RunFault::Turns);
    }
    Ok(outcome_of_turns(rt, alloc, machine, turns, gate)?)
}

/// Runs a machine as `run_compact` does, with the same outcome and the same faults, and records
/// the run: each event, in order of stamp and of equal ones by processor, as an entry that names
/// the letter that was handled, the core's turn, or the value of a clock. `replay_compact` takes
/// these entries, and comes to the same outcome.
pub fn run_recorded<'m, R: Threads + Sync, G: Gate + Sync>(
    rt: &R,
    alloc: Global,
    machine: &'m Machine,
    turns: u64,
    gate: &G,
) -> Result<(CompactOutcome<'m>, Vec<Entry>), RunFault>
    ensures ok { IfOk result (λ r. IsCompactOutcome machine.now turns r.0) }
    ensures replayed { IfOk result (λ r.
        IsCompactReplay machine.now (map entry_from r.1.items) r.0) }
    ensures lawful { IfOk result (λ r.
        entries_fault machine.now (map entry_from r.1.items) ≡ None) }
    ensures err { IfErr result (λ fault. (fault ≡ RunFault.NoMemory) ⊎
        (turns_fault turns ≡ Some fault)) }
    ensures range { IsErrOf result RunFault.Turns ↔ ((turns ≡ 0) ⊎ (most_turns < turns)) }
{
    if turns == 0 || MOST_TURNS < turns {
        return Err(RunFault::Turns);
    }
    Ok(recorded_turns(rt, alloc, machine, turns, gate)?)
}

fn recorded_turns<'m, R: Threads + Sync, G: Gate + Sync>(
    rt: &R,
    alloc: Global,
    machine: &'m Machine,
    turns: u64,
    gate: &G,
) -> Result<(CompactOutcome<'m>, Vec<Entry>), NoMemory>
    requires { turns ≤ most_turns }
    ensures ok { IfOk result (λ r. IsCompactOutcome machine.now turns r.0) }
    ensures replayed { IfOk result (λ r.
        IsCompactReplay machine.now (map entry_from r.1.items) r.0) }
    ensures lawful { IfOk result (λ r.
        entries_fault machine.now (map entry_from r.1.items) ≡ None) }
{
    machine.facts();
    let mut team = Team::new(alloc, machine, turns)?;
    team.run(rt, alloc, gate)?;
    let entries = team.recorded(alloc)?;
    let outcome = team.into_outcome(alloc)?;
    Ok((outcome, entries))
}

fn outcome_of_turns<'m, R: Threads + Sync, G: Gate + Sync>(
    rt: &R,
    alloc: Global,
    machine: &'m Machine,
    turns: u64,
    gate: &G,
) -> Result<CompactOutcome<'m>, NoMemory>
    requires { turns ≤ most_turns }
    ensures { IfOk result (IsCompactOutcome machine.now turns) }
{
    let mut team = Team::new(alloc, machine, turns)?;
    team.run(rt, alloc, gate)?;
    team.into_outcome(alloc)
}
