//! The schedule that a job asks for, and what a replay by it comes to.
ghost use Rattle.std.specs.Prelude.{◌≡◌, ◌⊎◌, ℕ, List, IfOk, IfErr, Ok, Err, None, map};
ghost use Rattle.l4_core_model.specs.Schedules.{replay_entries};
ghost use Rattle.l4_commands.specs.Files.{list_name};
ghost use Rattle.l4_replay.specs.Entries.{entries_fault, entry_from};
ghost use Rattle.l4_machine.specs.Outcomes.{IsCompactReplay};
ghost use Rattle.l4_schedules.specs.InFiles.{schedule_in_file};
ghost use Rattle.l4_jobs.specs.Inputs.{IsRead};
ghost use Rattle.l4_jobs.specs.Schedules.{IsListFault, IsReplayFault};
ghost use Rattle.l4_jobs.specs.Schedules.{asked_schedule, continued_run};
ghost use Rattle.l4_jobs.specs.declared.fault.Fault.TheVariants.{NoMemory as OutOfMemory};

use crate::fault::Fault;
use crate::job::list_name;
use crate::reading::read_list;
use crate::streams::Source;
use l4_machine::{CompactOutcome, replay_compact};
use l4_replay::{Entry, RunFault};
use l4_rounds::with_rest;
use l4_schedules::files::schedule_in_file;
use l4_schedules::items::schedule_of;
use l4_script::machine::Machine;
use l4_types::errors::NoMemory;
use std::alloc::Global;

// The entries of the schedule in the file of this name.
fn entries_in_file<'a, L: Source>(
    alloc: Global,
    machine: &Machine,
    name: &'a str,
    list: &mut L,
) -> Result<Vec<Entry>, Fault<'a>>
    ensures ok { IfOk result (λ entries. (all : List ℕ) × L.gives list.old (Ok all) ×
        (schedule_in_file machine.now all ≡ Ok (map entry_from entries.items))) }
    ensures lawful { IfOk result (λ entries.
        entries_fault machine.now (map entry_from entries.items) ≡ None) }
    ensures err { IfErr result (λ fault. (fault ≡ OutOfMemory) ⊎
        IsListFault machine.now name.now (L.gives list.old) fault) }
{
    let text = read_list(alloc, name, list)?;
    Ok(schedule_in_file(alloc, machine, text.as_slice())?)
}

// The entries of the schedule that a job asks for, from its list or from the file that the list
// names.
pub(crate) fn asked_entries<'a, L: Source>(
    alloc: Global,
    machine: &Machine,
    schedule: &'a str,
    list: &mut L,
) -> Result<Vec<Entry>, Fault<'a>>
    ensures ok { IfOk result (λ entries. (text : List ℕ) ×
        IsRead (list_name schedule.now) (L.gives list.old) text ×
        (asked_schedule machine.now schedule.now text ≡ Ok (map entry_from entries.items))) }
    ensures lawful { IfOk result (λ entries.
        entries_fault machine.now (map entry_from entries.items) ≡ None) }
    ensures err { IfErr result (λ fault. (fault ≡ OutOfMemory) ⊎
        IsReplayFault machine.now None schedule.now (L.gives list.old) fault) }
    ensures unread { list_name schedule.now ≡ None → list.new ≡ list.old }
{
    match list_name(schedule) {
        None => Ok(schedule_of(alloc, machine, schedule)?),
        Some(name) => entries_in_file(alloc, machine, name, list),
    }
}

// These entries, and those of the rest where the replay goes on in rounds.
pub(crate) fn with_asked_rest(
    alloc: Global,
    machine: &Machine,
    entries: Vec<Entry>,
    rest: Option<u64>,
) -> Result<Vec<Entry>, RunFault>
    requires { entries_fault machine.now (map entry_from entries.items) ≡ None }
    ensures ok { IfOk result (λ all. continued_run machine.now rest (map entry_from entries.items)
        ≡ Ok (replay_entries machine.now (map entry_from all.items))) }
    ensures lawful { IfOk result (λ all.
        entries_fault machine.now (map entry_from all.items) ≡ None) }
    ensures err { IfErr result (λ fault. (fault ≡ RunFault.NoMemory) ⊎
        (continued_run machine.now rest (map entry_from entries.items) ≡ Err fault)) }
{
    match rest {
        None => Ok(entries),
        Some(turns) => with_rest(alloc, machine, entries.as_slice(), turns),
    }
}

// A replay of these entries on the machine, which are entries of it.
fn replay_outcome<'m>(
    alloc: Global,
    machine: &'m Machine,
    entries: &[Entry],
) -> Result<CompactOutcome<'m>, NoMemory>
    requires { entries_fault machine.now (map entry_from entries.now) ≡ None }
    ensures { IfOk result (λ o. IsCompactReplay machine.now (map entry_from entries.now) o) }
{
    match replay_compact(alloc, machine, entries) {
        Ok(outcome) => Ok(outcome),
        Err(_) => Err(NoMemory),
    }
}

/// A replay, with all entries that it is the replay of.
#[derive(Drop)]
pub struct WholeReplay<'m> {
    pub(crate) outcome: CompactOutcome<'m>,
    pub(crate) entries: Vec<Entry>,
}

// The replay of these entries, which may go on in rounds.
pub(crate) fn whole_replay<'m>(
    alloc: Global,
    machine: &'m Machine,
    entries: Vec<Entry>,
    rest: Option<u64>,
) -> Result<WholeReplay<'m>, RunFault>
    requires { entries_fault machine.now (map entry_from entries.items) ≡ None }
    ensures ok { IfOk result (λ r. continued_run machine.now rest (map entry_from entries.items)
        ≡ Ok (replay_entries machine.now (map entry_from r.entries.items))) }
    ensures replayed { IfOk result (λ r.
        IsCompactReplay machine.now (map entry_from r.entries.items) r.outcome) }
    ensures lawful { IfOk result (λ r.
        entries_fault machine.now (map entry_from r.entries.items) ≡ None) }
    ensures err { IfErr result (λ fault. (fault ≡ RunFault.NoMemory) ⊎
        (continued_run machine.now rest (map entry_from entries.items) ≡ Err fault)) }
{
    let all = with_asked_rest(alloc, machine, entries, rest)?;
    Ok(WholeReplay {
        outcome: replay_outcome(alloc, machine, all.as_slice())?,
        entries: all,
    })
}
