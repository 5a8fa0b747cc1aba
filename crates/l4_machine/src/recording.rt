//! What a run recorded: what its processors did, as entries of a schedule.
ghost use Rattle.std.specs.Prelude.{◌≡◌, IfOk, is_some, map, true};
ghost use Rattle.std.specs.List.{AllByRecursion};
ghost use Rattle.l4_bisimilar.specs.Entries.{entry_of};
ghost use Rattle.l4_proc.specs.Choices.{action_of};
ghost use Rattle.l4_proc.specs.Logs.{actions};
ghost use Rattle.l4_replay.specs.Entries.{entry_from};
ghost use Rattle.l4_machine.specs.Inner.EventsLeft.{left, IsUnmerged};
ghost use Rattle.l4_machine.specs.Gathers.{HaveNumbers};
ghost use Rattle.l4_machine.specs.Inner.Recorded.{entries_left, recorded_entries, HasTakenEntry};
ghost use Rattle.l4_machine.specs.Inner.Rising.{HaveRisingLogs, RiseFrom};

use crate::merging::{place_of, unmerged_logs};
use crate::unmerged::{Unmerged, first_place, stamp_of};
use l4_proc::choice::Choice;
use l4_proc::processor::Processor;
use l4_replay::Entry;
use l4_script::machine::Machine;
use l4_types::errors::NoMemory;
use std::alloc::Global;

/// What all processors of a machine did, in order of stamp, and of equal ones by processor.
pub(crate) fn recorded(
    alloc: Global,
    machine: &Machine,
    processors: &[Processor<'_>],
) -> Result<Vec<Entry>, NoMemory>
    requires rising { HaveRisingLogs machine.now processors.now }
    requires numbers { HaveNumbers machine.now.cpus processors.now }
    ensures { IfOk result (λ entries.
        map entry_from entries.items ≡ recorded_entries machine.now processors.now) }
{
    let cpus = machine.cpus();
    if cpus == 1 {
        let processor = &processors[place_of(processors, 0)];
        return recorded_alone(alloc, processor);
    }
    let mut logs = unmerged_logs(alloc, processors, cpus)?;
    take_all(alloc, processors, logs.as_mut_slice())
}

// What a processor did. There is no other log to merge its own with. Almost all of it is turns of
// its core: so each entry begins as one, and only what is another is written.
fn recorded_alone(alloc: Global, processor: &Processor<'_>) -> Result<Vec<Entry>, NoMemory>
    ensures { IfOk result (λ entries.
        map entry_from entries.items ≡ map entry_of (actions processor.now.worker.log)) }
{
    let log = processor.log();
    let cpu = processor.cpu();
    let mut entries = vec![in alloc; Entry::Core(cpu); log.len()]?;
    for i in 0..log.len() {
        match log.choice(i) {
            Choice::Core => {}
            choice => entries[i] = entry(cpu, choice),
        }
    }
    Ok(entries)
}

// Takes all that is left of logs that stand in order of their processors.
fn take_all(
    alloc: Global,
    processors: &[Processor<'_>],
    logs: &mut [Unmerged],
) -> Result<Vec<Entry>, NoMemory>
    requires whole { AllByRecursion (IsUnmerged processors.now) logs.old }
    requires rising { RiseFrom 0 (map (left processors.now) logs.old) }
    ensures { IfOk result (λ entries.
        map entry_from entries.items ≡ entries_left processors.now logs.old) }
{
    let mut entries = Vec::new(alloc);
    while let Some(place) = first_place(logs) {
        let entry = take_first(processors, &mut logs[place]);
        entries.push(entry)?;
    }
    Ok(entries)
}

// Takes the first event that is left of a log. Answers it as an entry.
fn take_first(processors: &[Processor<'_>], log: &mut Unmerged) -> Entry
    requires whole { IsUnmerged processors.now log.old }
    requires some { is_some log.old.stamp ≡ true }
    ensures { HasTakenEntry processors.now log.old log.new (entry_from result) }
{
    let processor = &processors[log.place];
    let events = processor.log();
    let choice = events.choice(log.count - log.left);
    log.left -= 1;
    log.stamp = stamp_of(events, log.count - log.left);
    entry(processor.cpu(), choice)
}

// The entry that names what a processor did.
#[inline(always)]
fn entry(cpu: u8, choice: Choice) -> Entry
    ensures { entry_from result ≡ entry_of (action_of cpu choice) }
{
    match choice {
        Choice::Letter(from) => Entry::Letter { cpu, from },
        Choice::Core => Entry::Core(cpu),
        Choice::TickTo(clock) => Entry::TickTo { cpu, clock },
    }
}
