//! The undecided sends of several logs, in the order of the merged history, which is not made for
//! it.
ghost use Rattle.std.specs.Prelude.{◌≡◌, ◌≤◌, ◌+◌, IfOk, IfSome, IsTrue, OnOk, drop, filter_map};
ghost use Rattle.std.specs.Prelude.{is_some, length, map, slice_get, true};
ghost use Rattle.std.specs.List.{AllByRecursion};
ghost use Rattle.l4_core_model.specs.Runs.{merged, told};
ghost use Rattle.l4_proc.specs.Logs.{events, IsClosed};
ghost use Rattle.l4_machine.specs.Inner.EventsLeft.{all_left, left, IsUnmerged};
ghost use Rattle.l4_machine.specs.Inner.Rising.{HaveRisingLogs, RiseFrom};
ghost use Rattle.l4_machine.specs.Gathers.{events_of, merged_steps, HaveNumbers};
ghost use Rattle.l4_replay.specs.Inner.Waiting.{count_sought, count_undecided};
ghost use Rattle.l4_machine.specs.Inner.Waiting.{all_at_end, at_end};
ghost use Rattle.l4_replay.specs.Inner.Waiting.{sought, AreBegunOnce};
ghost use Rattle.l4_machine.specs.Inner.Waiting.{ArePassed, HasFoundFirst};
ghost use Rattle.l4_replay.specs.Inner.Waiting.{IsSearch};
ghost use Rattle.l4_machine.specs.Inner.Waiting.{HasPassed};

use crate::merging::unmerged_logs;
use crate::unmerged::{Unmerged, first_place, stamp_of};
use l4_proc::log::Log;
use l4_proc::processor::Processor;
use l4_replay::waiting::Search;
use l4_script::machine::Machine;
use l4_types::errors::NoMemory;
use l4_types::ids::ThreadId;
use l4_types::steps::Name;
use std::alloc::Global;

// How many of the last events of each log are searched: first 64, then more, until all sends are
// found. A thread that runs begins a send soon, so in a long run most events need no look.
const LOOKS: [usize; 4] = [64, 1_024, 16_384, 262_144];

// How many of `missing` sends are still missing after a search of the last `most` events of a log.
fn missing_after(
    search: &Search<'_>,
    processors: &[Processor<'_>],
    log: &Unmerged,
    most: usize,
    missing: usize,
) -> usize
    requires search { IsSearch search.now }
    requires whole { IsUnmerged processors.now log.now }
    ensures { missing ≤ result + count_sought (sought search.now)
        (at_end most (left processors.now log.now)) }
{
    let events = processors[log.place].log();
    let mut missing = missing;
    for i in log.count - log.left.min(most)..events.len() {
        let (start, end) = events.places(i);
        missing = search.missing_after(events.history(), start, end, missing);
    }
    missing
}

// Whether the last `most` events of each log begin all sends that are sought.
fn begin_all(
    search: &Search<'_>,
    processors: &[Processor<'_>],
    logs: &[Unmerged],
    most: usize,
) -> bool
    requires search { IsSearch search.now }
    requires whole { AllByRecursion (IsUnmerged processors.now) logs.now }
    ensures { IsTrue result →
        count_undecided search.now.at_home.now.sends.items ≤
        count_sought (sought search.now) (all_at_end processors.now most logs.now) }
{
    let mut missing = search.count();
    for log in logs {
        missing = missing_after(search, processors, log, most, missing);
    }
    missing == 0
}

// How many of the last events of each log are enough. None if the largest number tried is not
// enough.
fn enough(search: &Search<'_>, processors: &[Processor<'_>], logs: &[Unmerged]) -> Option<usize>
    requires search { IsSearch search.now }
    requires whole { AllByRecursion (IsUnmerged processors.now) logs.now }
    ensures { IfSome result (λ most.
        count_undecided search.now.at_home.now.sends.items ≤
        count_sought (sought search.now) (all_at_end processors.now most logs.now)) }
{
    for most in &LOOKS {
        if begin_all(search, processors, logs, *most) {
            return Some(*most);
        }
    }
    None
}

// The last `most` events that are left of a log.
fn last_of(processors: &[Processor<'_>], log: &Unmerged, most: usize) -> Unmerged
    requires { IsUnmerged processors.now log.now }
    ensures whole { IsUnmerged processors.now result }
    ensures left { left processors.now result ≡ at_end most (left processors.now log.now) }
{
    let left = log.left.min(most);
    Unmerged {
        place: log.place,
        count: log.count,
        left,
        stamp: stamp_of(processors[log.place].log(), log.count - left),
    }
}

// The last `most` events that are left of each log.
fn last_of_all(
    alloc: Global,
    processors: &[Processor<'_>],
    logs: &[Unmerged],
    most: usize,
) -> Result<Vec<Unmerged>, NoMemory>
    requires { AllByRecursion (IsUnmerged processors.now) logs.now }
    ensures whole { IfOk result (λ last. AllByRecursion (IsUnmerged processors.now) last.items) }
    ensures left { IfOk result (λ last.
        map (left processors.now) last.items ≡
        map (λ log. at_end most (left processors.now log)) logs.now) }
{
    let mut last = Vec::new(alloc);
    for log in logs {
        last.push(last_of(processors, log, most))?;
    }
    Ok(last)
}

// The logs without the early events, which begin none of the sends sought. Each send is begun once,
// so a search that has found as many as there are has found all.
fn without_early(
    alloc: Global,
    search: &Search<'_>,
    processors: &[Processor<'_>],
    logs: Vec<Unmerged>,
) -> Result<Vec<Unmerged>, NoMemory>
    requires search { IsSearch search.now }
    requires whole { AllByRecursion (IsUnmerged processors.now) logs.items }
    requires rising { RiseFrom 0 (map (left processors.now) logs.items) }
    requires once { AreBegunOnce (told (merged (all_left processors.now logs.items))) }
    ensures whole { IfOk result (λ late. AllByRecursion (IsUnmerged processors.now) late.items) }
    ensures passed { IfOk result (λ late.
        ArePassed (sought search.now) processors.now logs.items late.items) }
{
    match enough(search, processors, logs.as_slice()) {
        Some(most) => last_of_all(alloc, processors, logs.as_slice(), most),
        None => Ok(logs),
    }
}

// The first event of a log from this one on that begins a send that is sought. If none does, the
// one after the last.
fn next_sought(search: &Search<'_>, log: &Log, from: usize) -> usize
    requires search { IsSearch search.now }
    requires closed { IsClosed log.now }
    requires within { from ≤ length (events log.now) }
    ensures within { result ≤ length (events log.now) }
    ensures passed { HasPassed (sought search.now) (drop from (events log.now))
        (drop result (events log.now)) }
{
    let history = log.history();
    for i in from..log.len() {
        let (start, end) = log.places(i);
        if search.finds_between(history, start, end) {
            return i;
        }
    }
    log.len()
}

// Appends the sought sends that the first event left of a log begins, and skips the events after it
// that begin none.
fn find_first(
    search: &Search<'_>,
    processors: &[Processor<'_>],
    log: &mut Unmerged,
    sends: &mut Vec<(Name, ThreadId)>,
) -> Result<(), NoMemory>
    requires search { IsSearch search.now }
    requires whole { IsUnmerged processors.now log.old }
    requires some { is_some log.old.stamp ≡ true }
    ensures { OnOk result (HasFoundFirst
        (sought search.now) processors.now log.old log.new sends.old.items sends.new.items) }
{
    let events = processors[log.place].log();
    let first = log.count - log.left;
    let (start, end) = events.places(first);
    search.push_between(events.history(), start, end, sends)?;
    let next = next_sought(search, events, first + 1);
    log.left = log.count - next;
    log.stamp = stamp_of(events, next);
    Ok(())
}

// Finds the sought sends in all that is left of these logs, which stand in order of their
// processors.
fn find_all(
    alloc: Global,
    search: &Search<'_>,
    processors: &[Processor<'_>],
    logs: &mut [Unmerged],
) -> Result<Vec<(Name, ThreadId)>, NoMemory>
    requires search { IsSearch search.now }
    requires whole { AllByRecursion (IsUnmerged processors.now) logs.old }
    requires rising { RiseFrom 0 (map (left processors.now) logs.old) }
    ensures { IfOk result (λ sends.
        sends.items ≡
        filter_map (sought search.now) (told (merged (all_left processors.now logs.old)))) }
{
    let mut sends = Vec::new(alloc);
    while let Some(place) = first_place(logs) {
        find_first(search, processors, &mut logs[place], &mut sends)?;
    }
    Ok(sends)
}

/// The undecided sends that the processors of a machine began, in order of stamp, and of equal ones
/// by processor.
pub(crate) fn waiting_sends(
    alloc: Global,
    machine: &Machine,
    processors: &[Processor<'_>],
    search: &Search<'_>,
) -> Result<Vec<(Name, ThreadId)>, NoMemory>
    requires rising { HaveRisingLogs machine.now processors.now }
    requires numbers { HaveNumbers machine.now.cpus processors.now }
    requires search { IsSearch search.now }
    requires once { AreBegunOnce (merged_steps machine.now processors.now) }
    ensures { IfOk result (λ sends.
        sends.items ≡ filter_map (sought search.now) (merged_steps machine.now processors.now)) }
{
    let logs = unmerged_logs(alloc, processors, machine.cpus())?;
    let mut logs = without_early(alloc, search, processors, logs)?;
    find_all(alloc, search, processors, logs.as_mut_slice())
}
