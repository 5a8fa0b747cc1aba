//! A replay that goes on by itself, with its outcome.
ghost use Rattle.std.specs.Prelude.{◌≡◌, ◌<◌, ◌+◌, ◌↔◌, ◌⊎◌, IfErr, IfOk, IsErrOf, None, Some, length};
ghost use Rattle.std.specs.Prelude.{map};
ghost use Rattle.l4_replay.specs.Entries.{entry_from, most_turns};
ghost use Rattle.l4_machine.specs.Outcomes.{compact_findings_of, IsOutcomeOf, IsTrueOf};
ghost use Rattle.l4_rounds.specs.ThenRest.{rest_fault, then_rest};

use l4_machine::{CompactOutcome, replay_compact};
use l4_replay::{Entry, RunFault};
use l4_rounds::with_rest;
use l4_script::machine::Machine;
use std::alloc::Global;

/// Replays entries on a machine, then goes on in rounds of one turn of each processor, rising. All
/// of this runs on one thread of the host. In its turn a processor handles the first letter of the
/// lowest poster, else its core takes its turn. If a round has no event, all clocks below the
/// earliest deadline of all go on to that deadline. Each such tick counts as a turn. The call ends
/// when nothing goes on, or after the round or the ticks that use up `turns` more turns. `turns` is
/// 1 to 1,000,000 less the number of entries. The call may take one turn more for each processor
/// but one. The history is in the order told.
///
/// `Turns`: no turn is asked for, or entries and turns are more than 1,000,000 together.
/// `Schedule`: this entry, counted from 1, is the first that is none of the machine. `NoMemory`:
/// memory was refused, which may come in place of `Schedule`.
pub fn replay_then_rest<'m>(
    alloc: Global,
    machine: &'m Machine,
    entries: &[Entry],
    turns: u64,
) -> Result<CompactOutcome<'m>, RunFault>
    ensures ok { IfOk result (λ o.
        IsOutcomeOf machine.now (then_rest machine.now (map entry_from entries.now) turns)
        (compact_findings_of o)) }
    ensures headline { IfOk result (λ o. IsTrueOf machine.now (compact_findings_of o)) }
    ensures lawful { IfOk result (λ o.
        rest_fault machine.now (map entry_from entries.now) turns ≡ None) }
    ensures err { IfErr result (λ fault. (fault ≡ RunFault.NoMemory) ⊎
        (rest_fault machine.now (map entry_from entries.now) turns ≡ Some fault)) }
    ensures range { IsErrOf result RunFault.Turns ↔
        ((turns ≡ 0) ⊎ (most_turns < length entries.now + turns)) }
{
    let all = with_rest(alloc, machine, entries, turns)?;
    replay_compact(alloc, machine, all.as_slice())
}
