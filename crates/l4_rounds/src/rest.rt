//! The entries of a replay, and then of the rest.
ghost use Rattle.std.specs.Prelude.{◌≡◌, ◌<◌, ◌≤◌, ◌+◌, ◌↔◌, ◌⊎◌, IfErr, IfOk, IsErrOf, None, Some};
ghost use Rattle.std.specs.Prelude.{◌==◌, ◌||◌, length, map, nat_lt};
ghost use Rattle.l4_core_model.specs.Schedules.{replay_entries};
ghost use Rattle.l4_replay.specs.Entries.{entries_fault, entry_from, most_events, most_turns};
ghost use Rattle.l4_replay.specs.UnderWay.{IsRun};
ghost use Rattle.l4_rounds.specs.ThenRest.{rest_fault, HaveRest};
ghost use Rattle.l4_rounds.specs.Inner.Replays.{entries_of, IsReplay};

use crate::replays::Replay;
use l4_replay::{Entry, MOST_EVENTS, MOST_TURNS, RunFault, Walk};
use l4_script::machine::Machine;
use std::alloc::Global;

/// Returns the given entries, followed by those of the rest: a turn or a tick for each event of the
/// rest. The rest goes on from the replay of the given ones in rounds of one turn of each processor,
/// rising. In its turn a processor handles the first letter of the lowest poster, else its core
/// takes its turn. If a round has no event, all clocks below the earliest deadline of all go on to
/// that deadline. Each such tick counts as a turn. The rest ends when nothing goes on, or after the
/// round or the ticks that use up `turns` more turns. `turns` is 1 to 1,000,000 less the number of
/// entries. The rest may have one turn more for each processor but one. All of this runs on one
/// thread of the host.
///
/// `Turns`: no turn is asked for, or entries and turns are more than 1,000,000 together.
/// `Schedule`: this entry, counted from 1, is the first that is none of the machine. `NoMemory`:
/// memory was refused, which may come in place of `Schedule`.
pub fn with_rest(
    alloc: Global,
    machine: &Machine,
    entries: &[Entry],
    turns: u64,
) -> Result<Vec<Entry>, RunFault>
    ensures ok { IfOk result (λ all.
        HaveRest machine.now (map entry_from entries.now) turns (map entry_from all.items)) }
    ensures all { IfOk result (λ all.
        entries_fault machine.now (map entry_from all.items) ≡ None) }
    ensures lawful { IfOk result (λ all.
        rest_fault machine.now (map entry_from entries.now) turns ≡ None) }
    ensures err { IfErr result (λ fault. (fault ≡ RunFault.NoMemory) ⊎
        (rest_fault machine.now (map entry_from entries.now) turns ≡ Some fault)) }
    ensures range { IsErrOf result RunFault.Turns ↔
        ((turns ≡ 0) ⊎ (most_turns < length entries.now + turns)) }
{
    if is_out_of_range(entries.len(), turns) {
        return Err(RunFault::Turns);
    }
    machine.facts();
    let mut replay = replayed(alloc, machine, entries)?;
    replay.go_on(turns)?;
    Ok(replay.entries)
}

/// The core run that the replay of these entries comes to.
///
/// `Turns`: there are more than 1,000,015 entries. `Schedule`: this entry, counted from 1, is the
/// first that is none of the machine. `NoMemory`: memory was refused, which may come in place of
/// `Schedule`.
pub fn walk_behind<'m>(
    alloc: Global,
    machine: &'m Machine,
    entries: &[Entry],
) -> Result<Walk<'m>, RunFault>
    ensures ok { IfOk result
        (IsRun machine.now (replay_entries machine.now (map entry_from entries.now))) }
    ensures lawful { IfOk result (λ _.
        entries_fault machine.now (map entry_from entries.now) ≡ None) }
    ensures err { IfErr result (λ fault. (fault ≡ RunFault.NoMemory) ⊎
        (entries_fault machine.now (map entry_from entries.now) ≡ Some fault)) }
{
    if entries.len() > MOST_EVENTS {
        return Err(RunFault::Turns);
    }
    let replay = replayed(alloc, machine, entries)?;
    Ok(replay.walk)
}

// Whether no turn is asked for, or entries and turns together are more than a run may have.
fn is_out_of_range(entries: usize, turns: u64) -> bool
    ensures { result ≡ (turns == 0 || nat_lt most_turns (entries + turns)) }
{
    turns == 0 || turns > MOST_TURNS || entries as u64 > MOST_TURNS - turns
}

// The replay of entries.
fn replayed<'m>(
    alloc: Global,
    machine: &'m Machine,
    entries: &[Entry],
) -> Result<Replay<'m>, RunFault>
    requires { length entries.now ≤ most_events }
    ensures replay { IfOk result IsReplay }
    ensures machine { IfOk result (λ replay. replay.machine.now ≡ machine.now) }
    ensures entries { IfOk result (λ replay. entries_of replay ≡ map entry_from entries.now) }
    ensures err { IfErr result (λ fault. (fault ≡ RunFault.NoMemory) ⊎
        (entries_fault machine.now (map entry_from entries.now) ≡ Some fault)) }
{
    let mut replay = Replay::new(alloc, machine)?;
    for (place, entry) in entries.iter().enumerate() {
        if !entry.is_of(machine) {
            return Err(RunFault::Schedule(place + 1));
        }
        replay.take(*entry)?;
    }
    Ok(replay)
}
