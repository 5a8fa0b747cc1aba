// Processors that a caller puts to work itself, and their outcome.
ghost use Rattle.std.specs.Prelude.{◌<◌, ◌≤◌, IfErr, IfSome};
ghost use Rattle.l4_machine.specs.Gathers.{AreOfOne};
ghost use Rattle.l4_proc.specs.Working.{HasGoneOn};
ghost use Rattle.l4_mail.specs.Inner.Fabrics.{most_room};

use crate::processors::{processors_of, work};
use crate::runs::machine_of;
use l4_machine::{Outcome, gather};
use l4_proc::processor::Processor;
use l4_proc::stops::Stop;
use l4_replay::RunFault;
use l4_reports::report_lines::write_report;
use l4_samples::{ACROSS, call_begins, call_ends};
use l4_script::machine::Machine;
use l4_trace::traces::trace;
use std::alloc::Global;

const QUEUED: &str = "l4 1 64
cpus 2
thread 1.1 cpu 0 space 1
ipc 4.1 nil never never
thread 2.1 cpu 0 space 1
ipc 4.1 nil never never
thread 3.1 cpu 0 space 1
ipc 4.1 nil never never
thread 4.1 cpu 1 space 1
ipc nil any never never
jump 0
";

// Three processors, each with a thread that goes on for ever.
const TOGETHER: &str = "l4 1 64
cpus 3
thread 1.1 cpu 0 space 1
jump 0
thread 2.1 cpu 1 space 1
jump 0
thread 3.1 cpu 2 space 1
jump 0
";

// Lets a processor take this many turns, by a second call if memory was refused. Returns whether it
// has taken all.
fn takes<R: Print>(rt: &R, processor: &mut Processor<'_>, turns: u64) -> bool
    ensures { HasGoneOn processor.old processor.new }
{
    let last = processor.turns().saturating_add(turns);
    call_begins(rt, "work");
    let stop = work(processor, turns);
    call_ends(rt);
    // Nothing of a turn that was not taken is in the log.
    let whole = processor.log().len() as u64 == processor.turns();
    let stop = if stop == Stop::NoMemory {
        work(processor, last.saturating_sub(processor.turns()))
    } else {
        stop
    };
    whole && stop == Stop::Used
}

/// The processors of a machine after each share of `shares` in turn: the processor of this place
/// takes this many turns. None if it does not take as many.
pub(crate) fn worked<'m, R: AllocGlobal + Print>(
    rt: &R,
    machine: &'m Machine,
    room: usize,
    shares: &[(usize, u64)],
) -> Option<Vec<Processor<'m>>>
    requires { (0 < room) × (room ≤ most_room) }
    ensures { IfSome result (λ processors. AreOfOne machine.now processors.items) }
{
    let mut processors = processors_of(rt.alloc(), machine, room)?;
    for (cpu, turns) in shares {
        if *cpu >= processors.len() {
            return None;
        }
        if !takes(rt, &mut processors[*cpu], *turns) {
            return None;
        }
    }
    Some(processors)
}

/// The outcome of processors, or a fault and the processors.
pub(crate) fn gather_once<'m>(
    alloc: Global,
    machine: &Machine,
    processors: Vec<Processor<'m>>,
) -> Result<Outcome, (RunFault, Vec<Processor<'m>>)>
    requires { AreOfOne machine.now processors.items }
    ensures { IfErr result (λ e. AreOfOne machine.now e.1.items) }
{
    gather(alloc, machine, processors)
}

/// The outcome of processors, by a second call if memory was refused.
pub(crate) fn gathered_again<R: AllocGlobal + Print>(
    rt: &R,
    machine: &Machine,
    processors: Vec<Processor<'_>>,
) -> Option<Outcome>
    requires { AreOfOne machine.now processors.items }
{
    call_begins(rt, "gather");
    let gathered = gather_once(rt.alloc(), machine, processors);
    call_ends(rt);
    match gathered {
        Ok(outcome) => Some(outcome),
        Err((RunFault::NoMemory, back)) => gather_once(rt.alloc(), machine, back).ok(),
        Err(_) => None,
    }
}

// The fault if the last processor is missing, and the processors that come back.
fn gathered_without_last<'m>(
    alloc: Global,
    machine: &Machine,
    mut processors: Vec<Processor<'m>>,
) -> Option<(RunFault, Vec<Processor<'m>>)>
    requires { AreOfOne machine.now processors.items }
{
    let _last = processors.pop();
    gather_once(alloc, machine, processors).err()
}

// Whether an outcome has this trace.
fn has_trace(alloc: Global, outcome: &Outcome, lines: &str) -> bool {
    match trace(alloc, outcome.history.as_slice()) {
        Ok(told) => told.as_slice() == lines.as_bytes(),
        Err(_) => false,
    }
}

// Whether an outcome has this report.
fn has_report(alloc: Global, outcome: &Outcome, report: &str) -> bool {
    let mut reported = Vec::new(alloc);
    let threads = outcome.threads.as_slice();
    let waiting = outcome.waiting.as_slice();
    let written = write_report(threads, waiting, outcome.ending, &mut reported);
    written.is_ok() && reported.as_slice() == report.as_bytes()
}

/// Whether an outcome has this trace, this report and this many turns.
pub(crate) fn has(alloc: Global, outcome: &Outcome, lines: &str, report: &str, turns: u64) -> bool {
    has_trace(alloc, outcome, lines) && has_report(alloc, outcome, report) && outcome.turns == turns
}

// Whether the outcome of the processors of a text has this trace, this report and this many turns.
fn gathers_to<R: AllocGlobal + Print>(
    rt: &R,
    text: &str,
    room: usize,
    shares: &[(usize, u64)],
    wanted: (&str, &str, u64),
) -> Option<bool>
    requires { (0 < room) × (room ≤ most_room) }
{
    let (lines, report, turns) = wanted;
    let machine = machine_of(rt.alloc(), text)?;
    let processors = worked(rt, &machine, room, shares)?;
    let outcome = gathered_again(rt, &machine, processors)?;
    Some(has(rt.alloc(), &outcome, lines, report, turns))
}

#[test]
fn two_logs_make_one_history(rt: HostRuntime) {
    let shares = [(1, 1), (0, 3), (1, 1), (0, 2), (1, 1)];
    let lines =
        "local 1.1\nwait 2.1\nlocal 1.1\nbegin 1.1#1\nqueue 1.1#1\ndeliver 1.1#1 2.1 1.1 1.1 74001 a\nlocal 2.1\nlocal 1.1\n";
    let report =
        "thread 1.1 ended 0 nil nil 0 a\nthread 2.1 ended 0 1.1 1.1 74001 a\nending quiet\n";
    assert!(rt; gathers_to(&rt, ACROSS, 64, &shares, (lines, report, 8)) == Some(true));
}

// The ring between the two processors has room for one letter: the others wait in the outbox. Two
// sends and one answer are under way.
#[test]
fn full_rings_hold_nothing_back(rt: HostRuntime) {
    let lines =
        "begin 1.1#1\nbegin 2.1#1\nqueue 1.1#1\nbegin 3.1#1\nwait 4.1\ndeliver 1.1#1 4.1 1.1 1.1 4000\n";
    let report =
        "thread 1.1 ready 0 nil nil 0\nthread 2.1 sending 0 nil nil 0\nthread 3.1 sending 0 nil nil 0\nthread 4.1 ready 0 1.1 1.1 4000\nwaiting 2.1#1 4.1\nwaiting 3.1#1 4.1\nending spent\n";
    let shares = [(0, 3), (1, 3)];
    assert!(rt; gathers_to(&rt, QUEUED, 1, &shares, (lines, report, 6)) == Some(true));
}

// Whether these are two processors in their order, of which each has taken two turns.
fn are_two(processors: &[Processor<'_>]) -> bool {
    for (cpu, processor) in processors.iter().enumerate() {
        if usize::from(processor.cpu()) != cpu {
            return false;
        }
        if processor.turns() != 2 || processor.log().len() != 2 {
            return false;
        }
    }
    processors.len() == 2
}

fn come_back<R: AllocGlobal + Print>(rt: &R, machine: &Machine) -> Option<bool> {
    let processors = worked(rt, machine, 1, &[(1, 2), (2, 1), (0, 2)])?;
    let (fault, back) = gathered_without_last(rt.alloc(), machine, processors)?;
    Some(fault == RunFault::Strangers && are_two(back.as_slice()))
}

// First no processor is there; then the last of three is missing. The two others come back in their
// order, with all that they did. Ownership rules out that a processor is there twice, since no
// processor can be copied.
#[test]
fn one_of_them_is_missing(rt: HostRuntime) {
    let machine = machine_of(rt.alloc(), TOGETHER).expect(&rt, "a machine");
    assert!(rt; gather_once(rt.alloc(), &machine, Vec::new(rt.alloc())).is_err());
    assert!(rt; come_back(&rt, &machine) == Some(true));
}
