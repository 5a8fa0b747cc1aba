//! The logs of all processors, merged.
ghost use Rattle.std.specs.Prelude.{◌≡◌, IfOk, OnOk, is_some, length, map, slice_get, true};
ghost use Rattle.std.specs.List.{AllByRecursion, range_with_len};
ghost use Rattle.l4_core_model.specs.Runs.{told};
ghost use Rattle.l4_merge.specs.LocalTraces.{all_events};
ghost use Rattle.l4_proc.specs.Logs.{events};
ghost use Rattle.l4_machine.specs.Gathers.{events_of, merged_steps, pasts_of, with_number};
ghost use Rattle.l4_machine.specs.Gathers.{AreOfOne, HaveNumbers, IsMerge};
ghost use Rattle.l4_machine.specs.Outcomes.{steps_of};
ghost use Rattle.l4_machine.specs.Inner.EventsLeft.{left, IsUnmerged};
ghost use Rattle.l4_machine.specs.Inner.Recorded.{happened_left, actions_of};
ghost use Rattle.l4_machine.specs.Inner.Rising.{HaveRisingLogs};

use crate::logs::Logs;
use crate::run_history::RunHistory;
use crate::unmerged::{Unmerged, count_left, tell_all, untold};
use l4_history::history::History;
use l4_proc::processor::Processor;
use l4_replay::Listener;
use l4_script::machine::Machine;
use l4_types::errors::NoMemory;
use std::alloc::Global;

/// Tells a listener all that the processors of a machine did, in order of stamp, and of equal ones
/// by processor.
pub(crate) fn tell_merged<T: Listener>(
    alloc: Global,
    machine: &Machine,
    processors: &[Processor<'_>],
    listener: &mut T,
) -> Result<(), NoMemory>
    requires rising { HaveRisingLogs machine.now processors.now }
    requires numbers { HaveNumbers machine.now.cpus processors.now }
    ensures { OnOk result (T.hears listener.old
        (merged_steps machine.now processors.now) listener.new) }
{
    let mut logs = unmerged_logs(alloc, processors, machine.cpus())?;
    tell_all(processors, logs.as_mut_slice(), listener)
}

/// The history of all that they did, in the same order, and how many events it has.
pub(crate) fn merged_history(
    alloc: Global,
    machine: &Machine,
    processors: &[Processor<'_>],
) -> Result<(History, usize), NoMemory>
    requires rising { HaveRisingLogs machine.now processors.now }
    requires numbers { HaveNumbers machine.now.cpus processors.now }
    ensures history { IfOk result (λ r. r.0.steps ≡ merged_steps machine.now processors.now) }
    ensures events { IfOk result (λ r.
        r.1 ≡ length (all_events (pasts_of machine.now processors.now))) }
{
    let events = count_all(alloc, machine, processors)?;
    let mut history = History::new(alloc);
    tell_merged(alloc, machine, processors, &mut history)?;
    Ok((history, events))
}

// How many events all processors of a machine had.
fn count_all(
    alloc: Global,
    machine: &Machine,
    processors: &[Processor<'_>],
) -> Result<usize, NoMemory>
    requires { HaveNumbers machine.now.cpus processors.now }
    ensures { IfOk result (λ events.
        events ≡ length (all_events (pasts_of machine.now processors.now))) }
{
    let logs = unmerged_logs(alloc, processors, machine.cpus())?;
    count_left(logs.as_slice())
}

/// History and number of events of processors that nobody needs any more. The history of one that
/// is alone is its log's, and that of several is told when it is asked for. Nothing is copied.
pub(crate) fn run_history<'m>(
    alloc: Global,
    machine: &'m Machine,
    processors: Vec<Processor<'m>>,
) -> Result<(RunHistory<'m>, usize), NoMemory>
    requires one { AreOfOne machine.now processors.items }
    requires numbers { HaveNumbers machine.now.cpus processors.items }
    requires count { length processors.items ≡ machine.now.cpus }
    ensures history { IfOk result (λ r. IsMerge machine.now processors.entry.items (steps_of r.0)) }
    ensures events { IfOk result (λ r.
        r.1 ≡ length (all_events (pasts_of machine.now processors.entry.items))) }
{
    if machine.cpus() > 1 {
        let events = count_all(alloc, machine, processors.as_slice())?;
        return Ok((RunHistory::Logs(Logs::new(machine, processors)), events));
    }
    let mut processors = processors;
    match processors.pop() {
        Some(processor) => {
            let (history, events) = own_history(processor);
            Ok((RunHistory::Steps(history), events))
        }
        None => unreachable!(),
    }
}

// The history of a log, and how many events it has.
fn own_history(processor: Processor<'_>) -> (History, usize)
    ensures history { result.0.steps ≡ told (events processor.entry.worker.log) }
    ensures events { result.1 ≡ length (events processor.entry.worker.log) }
{
    let log = processor.into_log();
    let events = log.len();
    (log.into_history(), events)
}

/// The logs of all processors, by number, of which no event is merged yet.
pub(crate) fn unmerged_logs(
    alloc: Global,
    processors: &[Processor<'_>],
    cpus: u8,
) -> Result<Vec<Unmerged>, NoMemory>
    requires { HaveNumbers cpus processors.now }
    ensures whole { IfOk result (λ logs. AllByRecursion (IsUnmerged processors.now) logs.items) }
    ensures events { IfOk result (λ logs.
        map (left processors.now) logs.items ≡
        map (λ cpu. events_of (with_number cpu processors.now)) (range_with_len 0 cpus)) }
    ensures happened { IfOk result (λ logs.
        map (happened_left processors.now) logs.items ≡
        map (λ cpu. actions_of (with_number cpu processors.now)) (range_with_len 0 cpus)) }
{
    let mut logs = Vec::new(alloc);
    for cpu in 0..cpus {
        logs.push(untold(processors, place_of(processors, cpu)))?;
    }
    Ok(logs)
}

/// Where the processor of this number stands.
pub(crate) fn place_of(processors: &[Processor<'_>], cpu: u8) -> usize
    requires { is_some (with_number cpu processors.now) ≡ true }
    ensures { slice_get processors.now result ≡ with_number cpu processors.now }
{
    for place in 0..processors.len() {
        if processors[place].cpu() == cpu {
            return place;
        }
    }
    unreachable!()
}
