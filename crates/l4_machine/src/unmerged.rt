//! Logs that are merged event by event, in order of stamp, and of equal ones by processor.
ghost use Rattle.std.specs.Prelude.{◌≡◌, ◌<◌, ◌≤◌, List, IfOk, OnOk, is_some, length, map};
ghost use Rattle.std.specs.Prelude.{slice_get, true};
ghost use Rattle.std.specs.List.{AllByRecursion};
ghost use Rattle.std.specs.Option.{option_map};
ghost use Rattle.l4_core_model.specs.Runs.{merged, told};
ghost use Rattle.l4_proc.specs.Logs.{events};
ghost use Rattle.l4_proc.specs.declared.processor.Processor.{Processor as ProcessorOfMachine};
ghost use Rattle.l4_machine.specs.Inner.EventsLeft.{all_left, least_place, left, HasTakenFirst};
ghost use Rattle.l4_machine.specs.Inner.EventsLeft.{IsUnmerged};
ghost use Rattle.l4_machine.specs.Inner.Recorded.{happened_left, actions_of};
ghost use Rattle.l4_machine.specs.Inner.Rising.{RiseFrom};
ghost use Rattle.l4_machine.specs.Gathers.{events_of};

use l4_history::steps::Steps;
use l4_proc::log::Log;
use l4_proc::processor::Processor;
use l4_replay::Listener;
use l4_types::errors::NoMemory;

/// A log whose last events are still to be merged.
#[derive(Clone, Copy)]
pub(crate) struct Unmerged {
    // Where its processor stands in a list.
    pub(crate) place: usize,
    // How many events it has.
    pub(crate) count: usize,
    // How many of them are still to be merged.
    pub(crate) left: usize,
    // The stamp of the first of these.
    pub(crate) stamp: Option<u64>,
}

/// The log of the processor at a place, of which no event is merged.
pub(crate) fn untold(processors: &[Processor<'_>], place: usize) -> Unmerged
    requires { place < length processors.now }
    ensures whole { IsUnmerged processors.now result }
    ensures left { left processors.now result ≡ events_of (slice_get processors.now place) }
    ensures happened { happened_left processors.now result ≡
        actions_of (slice_get processors.now place) }
{
    let log = processors[place].log();
    let count = log.len();
    Unmerged {
        place,
        count,
        left: count,
        stamp: stamp_of(log, 0),
    }
}

/// The stamp of the i-th event of a log, counted from 0. None if there are no more.
pub(crate) fn stamp_of(log: &Log, i: usize) -> Option<u64>
    ensures { result ≡ option_map (λ e. e.stamp) (slice_get (events log.now) i) }
{
    if i < log.len() {
        Some(log.stamp(i))
    } else {
        None
    }
}

/// How many events are left of all these logs.
pub(crate) fn count_left(logs: &[Unmerged]) -> Result<usize, NoMemory>
    ensures { (ps : List ProcessorOfMachine) → AllByRecursion (IsUnmerged ps) logs.now →
        IfOk result (λ count. count ≡ length (all_left ps logs.now)) }
{
    let mut count: usize = 0;
    for log in logs {
        // No memory has room for more.
        count = count.checked_add(log.left).ok_or(NoMemory)?;
    }
    Ok(count)
}

/// The place of the log whose next event comes first: no log has a lower stamp, and no earlier log
/// the same one.
pub(crate) fn first_place(logs: &[Unmerged]) -> Option<usize>
    ensures { result ≡ option_map (λ first. first.0)
        (least_place (map (λ log. log.stamp) logs.now)) }
{
    let mut first: Option<(usize, u64)> = None;
    let mut place = logs.len();
    while place > 0 {
        place -= 1;
        if let Some(stamp) = logs[place].stamp {
            match first {
                Some((_, least)) if least < stamp => {}
                _ => first = Some((place, stamp)),
            }
        }
    }
    match first {
        Some((place, _)) => Some(place),
        None => None,
    }
}

// Takes the first event that is left of a log. Answers its steps.
fn take_first<'a>(processors: &'a [Processor<'_>], log: &mut Unmerged) -> Steps<'a>
    requires whole { IsUnmerged processors.now log.old }
    requires some { is_some log.old.stamp ≡ true }
    ensures { HasTakenFirst processors.now log.old log.new result }
{
    let events = processors[log.place].log();
    let first = events.event(log.count - log.left);
    log.left -= 1;
    log.stamp = stamp_of(events, log.count - log.left);
    first.steps
}

/// Tells a listener all that is left of logs that stand in order of their processors.
pub(crate) fn tell_all<T: Listener>(
    processors: &[Processor<'_>],
    logs: &mut [Unmerged],
    listener: &mut T,
) -> Result<(), NoMemory>
    requires whole { AllByRecursion (IsUnmerged processors.now) logs.old }
    requires rising { RiseFrom 0 (map (left processors.now) logs.old) }
    ensures { OnOk result (T.hears listener.old
        (told (merged (all_left processors.now logs.old))) listener.new) }
{
    while let Some(place) = first_place(logs) {
        let steps = take_first(processors, &mut logs[place]);
        listener.hear(steps)?;
    }
    Ok(())
}
