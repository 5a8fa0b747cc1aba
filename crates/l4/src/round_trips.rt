//! Calls whose contracts are theorems. The trace of a run or replay is read back as its history,
//! and passes its audit. The replay of what a run recorded is that run.
//!
//! `audited_run` and `audited_replay` run a machine, write its trace, read the trace back, and
//! audit the steps that they read. Contracts say that the only faults are those of the run. The
//! trace is that of its history, no line of the trace is faulty, and no step is refused. Use these
//! calls to check a run in a second way.
//!
//! The calls take memory for all four. No clause says that memory suffices.
//!
//! ```rust
//! let audited = audited_run(&rt, alloc, &machine, 1_000, &Open)?;
//! assert!(rt; audited.audit.threads.len() == machine.threads().len());
//! ```
ghost use Rattle.std.specs.Prelude.{◌≡◌, ◌<◌, ◌↔◌, ◌⊎◌, List, IfOk, IfErr, IsErrOf, Some, None};
ghost use Rattle.std.specs.Prelude.{Ok, map, length};
ghost use Rattle.l4_model.specs.History.{IsHistory};
ghost use Rattle.l4_model.specs.Steps.{Step as ModelStep};
ghost use Rattle.l4_types.specs.StepView.{step_of};
ghost use Rattle.l4_replay.specs.Entries.{most_entries, most_turns, turns_fault, schedule_fault};
ghost use Rattle.l4_replay.specs.Entries.{entries_fault, entry_from};
ghost use Rattle.l4_machine.specs.Outcomes.{IsCompactOutcome, IsCompactReplay, IsOutcome};
ghost use Rattle.l4_machine.specs.Outcomes.{IsReplayed, compact_findings_of};
ghost use Rattle.l4_replay.specs.declared.fault.RunFault.TheVariants.{NoMemory as RunOutOfMemory};
ghost use Rattle.l4_trace.specs.Reading.{steps_of};
ghost use Rattle.l4_audit.specs.Audits.{Passes};
ghost use Rattle.l4.specs.Inner.RoundTrips.{IsAudited};

use l4_audit::audit::{Audit, AuditFault, check};
use l4_machine::{
    CompactOutcome, Outcome, law_one_outcome, replay, replay_compact, run, run_recorded,
};
use l4_model::law_first_fault;
use l4_proc::gate::Gate;
use l4_replay::{Entry, RunFault};
use l4_script::machine::Machine;
use l4_trace::fault::TraceFault;
use l4_trace::reading::{law_read_back, read_events};
use l4_trace::traces::trace;
use l4_types::errors::NoMemory;
use l4_types::steps::Step;
use std::alloc::Global;
use std::thread::Threads;

/// The outcome of a run, its trace, and the audit of the steps that were read of this trace.
#[derive(Drop)]
pub struct AuditedOutcome {
    /// The outcome of the run or the replay.
    pub outcome: Outcome,
    /// The lines of its history.
    pub trace: Vec<u8>,
    /// The audit of the steps that were read of these lines.
    pub audit: Audit,
}

/// Runs a machine for `turns` turns, 1 to 1,000,000, as `run` does. Writes its trace, reads the
/// trace back and audits the steps.
///
/// The faults are those of `run` alone: no line of the trace is faulty, and no step is refused.
pub fn audited_run<R: Threads + Sync, G: Gate + Sync>(
    rt: &R,
    alloc: Global,
    machine: &Machine,
    turns: u64,
    gate: &G,
) -> Result<AuditedOutcome, RunFault>
    ensures outcome { IfOk result (λ audited. IsOutcome machine.now turns audited.outcome) }
    ensures audited { IfOk result (IsAudited machine.now) }
    ensures err { IfErr result (λ fault. (fault ≡ RunFault.NoMemory) ⊎
        (turns_fault turns ≡ Some fault)) }
    ensures range { IsErrOf result RunFault.Turns ↔ ((turns ≡ 0) ⊎ (most_turns < turns)) }
{
    let outcome = run(rt, alloc, machine, turns, gate)?;
    Ok(audited_outcome(alloc, machine, outcome)?)
}

/// Replays a schedule of at most 1,000,000 entries. Writes its trace, reads the trace back and
/// audits the steps.
///
/// The faults are those of `replay` alone: no line of the trace is faulty, and no step is refused.
pub fn audited_replay(
    alloc: Global,
    machine: &Machine,
    schedule: &[u8],
) -> Result<AuditedOutcome, RunFault>
    ensures outcome { IfOk result (λ audited. IsReplayed machine.now schedule.now audited.outcome) }
    ensures audited { IfOk result (IsAudited machine.now) }
    ensures err { IfErr result (λ fault. (fault ≡ RunFault.NoMemory) ⊎
        (schedule_fault machine.now schedule.now ≡ Some fault)) }
    ensures range { IsErrOf result RunFault.Turns ↔ (most_entries < length schedule.now) }
{
    let outcome = replay(alloc, machine, schedule)?;
    Ok(audited_outcome(alloc, machine, outcome)?)
}

/// Runs a machine for `turns` turns, 1 to 1,000,000, as `run_recorded` does, and replays what was
/// recorded. The outcomes of the run and of the replay are the same.
///
/// The faults are those of `run_recorded` alone: what it recorded is a schedule of the machine.
pub fn replayed_run<'m, R: Threads + Sync, G: Gate + Sync>(
    rt: &R,
    alloc: Global,
    machine: &'m Machine,
    turns: u64,
    gate: &G,
) -> Result<(CompactOutcome<'m>, CompactOutcome<'m>), RunFault>
    ensures outcome { IfOk result (λ both. IsCompactOutcome machine.now turns both.0) }
    ensures same { IfOk result (λ both.
        compact_findings_of both.1 ≡ compact_findings_of both.0) }
    ensures err { IfErr result (λ fault. (fault ≡ RunFault.NoMemory) ⊎
        (turns_fault turns ≡ Some fault)) }
    ensures range { IsErrOf result RunFault.Turns ↔ ((turns ≡ 0) ⊎ (most_turns < turns)) }
{
    law_one_outcome();
    let (outcome, entries) = run_recorded(rt, alloc, machine, turns, gate)?;
    let again = replay_lawful(alloc, machine, entries.as_slice())?;
    Ok((outcome, again))
}

// Replays entries of the machine, at most as many as there may be.
fn replay_lawful<'m>(
    alloc: Global,
    machine: &'m Machine,
    entries: &[Entry],
) -> Result<CompactOutcome<'m>, NoMemory>
    requires { entries_fault machine.now (map entry_from entries.now) ≡ None }
    ensures { IfOk result (IsCompactReplay machine.now (map entry_from entries.now)) }
{
    match replay_compact(alloc, machine, entries) {
        Ok(outcome) => Ok(outcome),
        Err(RunFault::NoMemory) => Err(NoMemory),
        Err(_) => unreachable!(),
    }
}

// Writes the trace of an outcome, reads the trace back and audits the steps.
fn audited_outcome(
    alloc: Global,
    machine: &Machine,
    outcome: Outcome,
) -> Result<AuditedOutcome, NoMemory>
    requires { IsHistory machine.now (map step_of outcome.history.items) }
    ensures outcome { IfOk result (λ audited. audited.outcome ≡ outcome) }
    ensures audited { IfOk result (IsAudited machine.now) }
{
    law_read_back();
    let trace = trace(alloc, outcome.history.as_slice())?;
    let steps = read_back(alloc, trace.as_slice())?;
    let audit = passed(alloc, machine, steps.as_slice())?;
    Ok(AuditedOutcome {
        outcome,
        trace,
        audit,
    })
}

// The steps of a trace.
fn read_back(alloc: Global, trace: &[u8]) -> Result<Vec<Step>, NoMemory>
    requires { (steps : List ModelStep) × (steps_of trace.now ≡ Ok steps) }
    ensures { IfOk result (λ steps. steps_of trace.now ≡ Ok (map step_of steps.items)) }
{
    match read_events(alloc, trace) {
        Ok(steps) => Ok(steps),
        Err(TraceFault::NoMemory) => Err(NoMemory),
        Err(TraceFault::Line(_)) => unreachable!(),
    }
}

// The audit of a history.
fn passed(alloc: Global, machine: &Machine, history: &[Step]) -> Result<Audit, NoMemory>
    requires { IsHistory machine.now (map step_of history.now) }
    ensures { IfOk result (λ audit. Passes machine.now (map step_of history.now) audit) }
{
    law_first_fault();
    match check(alloc, machine, history) {
        Ok(audit) => Ok(audit),
        Err(AuditFault::NoMemory) => Err(NoMemory),
        Err(AuditFault::Refused { .. }) => unreachable!(),
    }
}
