//! A replay of a schedule: one event at most for each of its entries.
ghost use Rattle.std.specs.Prelude.{◌≡◌, ◌<◌, ◌≤◌, ◌↔◌, ◌⊎◌, IfOk, IfErr, IsErrOf, None, Some};
ghost use Rattle.std.specs.Prelude.{length, map, nat_lt};
ghost use Rattle.l4_replay.specs.Entries.{entries_fault, entry_from, first_stranger, most_entries};
ghost use Rattle.l4_replay.specs.Entries.{most_events, schedule_fault};
ghost use Rattle.l4_machine.specs.Outcomes.{IsCompactReplay, IsReplayed, IsTrueOf};
ghost use Rattle.l4_machine.specs.Outcomes.{compact_findings_of, findings_of};

use crate::outcome::{CompactOutcome, Outcome, outcome_of};
use crate::run_history::RunHistory;
use l4_replay::entries::entries_of;
use l4_replay::schedules::{EndedReplay, ended_replay};
use l4_replay::{Entry, MOST_ENTRIES, MOST_EVENTS, RunFault, law_core_run};
use l4_script::machine::Machine;
use std::alloc::Global;

fn outcome_of_entries<'m>(
    alloc: Global,
    machine: &'m Machine,
    entries: &[Entry],
) -> Result<CompactOutcome<'m>, RunFault>
    requires { length entries.now ≤ most_events }
    ensures ok { IfOk result (IsCompactReplay machine.now (map entry_from entries.now)) }
    ensures lawful { IfOk result (λ o.
        first_stranger machine.now 1 (map entry_from entries.now) ≡ None) }
    ensures err { IfErr result (λ fault. (fault ≡ RunFault.NoMemory) ⊎
        (entries_fault machine.now (map entry_from entries.now) ≡ Some fault)) }
{
    law_core_run();
    let EndedReplay {
        processors,
        history,
    } = ended_replay(alloc, machine, entries)?;
    let threads = processors.in_world(alloc)?;
    Ok(outcome_of(
        alloc,
        machine,
        RunHistory::Steps(history),
        threads,
        true,
        processors.ending(),
        processors.events(),
    )?)
}

// Whether there are more entries than there may be.
fn are_too_many(entries: usize, most: usize) -> bool
    ensures { result ≡ nat_lt most entries }
{
    entries > most
}

/// Replays a schedule of at most 1,000,000 entries on a machine, on one thread of the host. The
/// number of a processor, 0 to 15, is an entry for a turn of it: it handles the first letter of the
/// lowest poster, else it is the core's turn. That number plus 16 is an entry that advances its
/// clock to its least deadline. Where a processor has nothing to do, or no deadline above its
/// clock, there is no event. The empty schedule is lawful. The history is in the order of the
/// schedule.
///
/// `Turns`: there are more entries. `Schedule`: this entry, counted from 1, is the first whose
/// processor the machine does not have. `NoMemory`: memory was refused, which may come in the place
/// of `Schedule`.
pub fn replay(alloc: Global, machine: &Machine, schedule: &[u8]) -> Result<Outcome, RunFault>
    ensures ok { IfOk result (IsReplayed machine.now schedule.now) }
    ensures headline { IfOk result (λ o. IsTrueOf machine.now (findings_of o)) }
    ensures lawful { IfOk result (λ o. schedule_fault machine.now schedule.now ≡ None) }
    ensures err { IfErr result (λ fault. (fault ≡ RunFault.NoMemory) ⊎
        (schedule_fault machine.now schedule.now ≡ Some fault)) }
    ensures range { IsErrOf result RunFault.Turns ↔ (most_entries < length schedule.now) }
{
    if are_too_many(schedule.len(), MOST_ENTRIES) {
        return Err(RunFault::Turns);
    }
    let entries = entries_of(alloc, schedule)?;
    let outcome = replay_compact(alloc, machine, entries.as_slice())?;
    Ok(outcome.into_outcome(alloc)?)
}

/// Replays at most 1,000,015 entries on a machine, as `replay` does the numbers of a schedule, and
/// keeps the history in compact form. Beside turns and ticks to the least deadline an entry may
/// name the letter that a processor handles, its core's turn, or the value that its clock goes on
/// to. So each history that a run may have is the history of some entries. Where what an entry asks
/// for can't be done, there is no event.
///
/// `Turns`: there are more entries. `Schedule`: this entry, counted from 1, is the first that is
/// none of the machine (`Entry::is_of`). `NoMemory`: memory was refused, which may come in the
/// place of `Schedule`.
#[tactic(auto, using(crate::proofs::Outcomes::replay_is_true))]
pub fn replay_compact<'m>(
    alloc: Global,
    machine: &'m Machine,
    entries: &[Entry],
) -> Result<CompactOutcome<'m>, RunFault>
    ensures ok { IfOk result (IsCompactReplay machine.now (map entry_from entries.now)) }
    ensures headline { IfOk result (λ o. IsTrueOf machine.now (compact_findings_of o)) }
    ensures lawful { IfOk result (λ o.
        entries_fault machine.now (map entry_from entries.now) ≡ None) }
    ensures err { IfErr result (λ fault. (fault ≡ RunFault.NoMemory) ⊎
        (entries_fault machine.now (map entry_from entries.now) ≡ Some fault)) }
    ensures range { IsErrOf result RunFault.Turns ↔ (most_events < length entries.now) }
{
    if are_too_many(entries.len(), MOST_EVENTS) {
        return Err(RunFault::Turns);
    }
    outcome_of_entries(alloc, machine, entries)
}
