ghost use Rattle.std.specs.Prelude.{◌<◌, ◌≤◌, IfSome, map};
ghost use Rattle.l4_machine.specs.Gathers.{AreOfOne};
ghost use Rattle.l4_mail.specs.Inner.Fabrics.{most_room};
ghost use Rattle.l4_mail.specs.Ports.{AreOneFabric};
ghost use Rattle.l4_proc.specs.Logs.{IsClosed};
ghost use Rattle.l4_proc.specs.Working.{HasGoneOn};

use crate::runs::{Meeting, machine_of};
use l4_proc::assembly::assemble;
use l4_proc::gate::Open;
use l4_proc::log::Log;
use l4_proc::processor::Processor;
use l4_proc::stops::{ProcFault, Stop};
use l4_proc::together::work_together;
use l4_samples::{ACROSS, endless};
use l4_script::machine::Machine;
use std::alloc::Global;
use std::thread::Threads;

// A thread waits for five ticks.
const TIMED: &str = "l4 1 64
cpus 1
thread 1.1 cpu 0 space 1
ipc nil any never 5
";

/// Whether the events of a log have these stamps.
pub(crate) fn has_stamps(log: &Log, stamps: &[u64]) -> bool
    requires { IsClosed log.now }
{
    if log.len() != stamps.len() {
        return false;
    }
    for i in 0..stamps.len() {
        if log.event(i).stamp != stamps[i] {
            return false;
        }
    }
    true
}

/// Lets a processor take at most this many turns.
pub(crate) fn work(processor: &mut Processor<'_>, turns: u64) -> Stop
    ensures { HasGoneOn processor.old processor.new }
{
    processor.work(turns, &Open)
}

/// Advances the clock of a processor.
pub(crate) fn tick(processor: &mut Processor<'_>, to: u64) -> Result<(), ProcFault> {
    processor.tick(to)
}

// Whether a processor that may take this many turns stops so.
fn stops(processor: &mut Processor<'_>, turns: u64, stop: Stop) -> bool {
    work(processor, turns) == stop
}

// Whether a processor has taken this many turns, with events of these stamps, and has nothing left
// to do.
fn is_done(processor: &mut Processor<'_>, turns: u64, stamps: &[u64]) -> bool {
    has_stamps(processor.log(), stamps)
        && processor.turns() == turns
        && stops(processor, 1, Stop::Idle)
}

/// The processors of a machine, whose rings have this room.
pub(crate) fn processors_of<'m>(
    alloc: Global,
    machine: &'m Machine,
    room: usize,
) -> Option<Vec<Processor<'m>>>
    requires { (0 < room) × (room ≤ most_room) }
    ensures { IfSome result (λ processors. AreOfOne machine.now processors.items) }
{
    let Ok(processors) = assemble(alloc, machine, room) else {
        return None;
    };
    Some(processors)
}

fn has_crossed(alloc: Global) -> Option<bool> {
    let machine = machine_of(alloc, ACROSS)?;
    let mut processors = processors_of(alloc, &machine, 64)?;
    let mut other = processors.pop()?;
    let mut home = processors.pop()?;
    let have_worked = processors.is_empty()
        && stops(&mut other, 1, Stop::Used)
        && stops(&mut home, 3, Stop::Used)
        && stops(&mut other, 1, Stop::Used)
        && stops(&mut home, 2, Stop::Used)
        && stops(&mut other, 1, Stop::Used);
    let are_done = is_done(&mut home, 5, &[1, 2, 3, 5, 6]) && is_done(&mut other, 3, &[1, 4, 5]);
    Some(have_worked && are_done)
}

// Two letters: the send, and that it was delivered. The receiver waits, the send goes and is
// delivered, the sender learns of it, and both threads end. No contract forbids a processor that
// takes no letter, or that never moves one on.
#[test]
fn a_message_crosses(rt: HostRuntime) {
    assert!(rt; has_crossed(rt.alloc()) == Some(true));
}

// Whether the clock of a processor advances to five, which is no turn.
fn ticks_to_five(processor: &mut Processor<'_>) -> bool {
    processor.core().least_deadline() == Some(5)
        && tick(processor, 0).is_err()
        && tick(processor, 5).is_ok()
        && processor.turns() == 1
}

fn times_out(alloc: Global) -> Option<bool> {
    let machine = machine_of(alloc, TIMED)?;
    let mut processors = processors_of(alloc, &machine, 1)?;
    let mut processor = processors.pop()?;
    let is_timed_out = processors.is_empty()
        && stops(&mut processor, 2, Stop::Idle)
        && ticks_to_five(&mut processor)
        && stops(&mut processor, 3, Stop::Idle);
    Some(is_timed_out && has_stamps(processor.log(), &[1, 2, 3, 4]) && !processor.in_hand())
}

// The clock advances, and then the receive has timed out.
#[test]
fn a_clock_goes_on(rt: HostRuntime) {
    assert!(rt; times_out(rt.alloc()) == Some(true));
}

// Whether these processors have taken ten turns each, `cpus` of them.
fn have_taken_ten(processors: &[Processor<'_>], cpus: u8) -> bool {
    for processor in processors {
        if processor.turns() != 10 || processor.stop() != Stop::Used {
            return false;
        }
    }
    processors.len() == usize::from(cpus)
}

fn meet<R: AllocGlobal + Threads + Sync>(rt: &R, cpus: u8) -> Option<bool> {
    let text = endless(rt.alloc(), cpus, cpus).ok()?;
    let machine = machine_of(rt.alloc(), text.as_str())?;
    let mut processors = processors_of(rt.alloc(), &machine, 1)?;
    let gate = Meeting::new(cpus);
    work_together(rt, processors.as_mut_slice(), 10, &gate);
    Some(gate.was_kept() && have_taken_ten(processors.as_slice(), cpus))
}

// Each processor has a thread that goes on for ever, and the processors meet while each takes ten
// turns. No clause says that host threads run side by side. If they do not, the looks of a gate
// that waits for all run out.
#[test]
fn processors_are_at_work_at_the_same_time(rt: HostRuntime) {
    for cpus in [2, 16] {
        assert!(rt; meet(&rt, cpus) == Some(true), "{cpus}");
    }
}

// How many turns the processor at this place took.
fn turns_at(processors: &[Processor<'_>], at: usize) -> u64 {
    match processors.get(at) {
        Some(processor) => processor.turns(),
        None => 0,
    }
}

// Whether the processors work until the first one has its five turns.
fn work_until_five<R: Threads + Sync>(rt: &R, processors: &mut Vec<Processor<'_>>) -> bool {
    for _ in 0..1000 {
        if turns_at(processors.as_slice(), 0) != 5 {
            work_together(rt, processors.as_mut_slice(), 100, &Open);
        }
    }
    turns_at(processors.as_slice(), 0) == 5 && turns_at(processors.as_slice(), 1) >= 3
}

fn crosses_between_threads<R: AllocGlobal + Threads + Sync>(rt: &R) -> Option<bool> {
    let machine = machine_of(rt.alloc(), ACROSS)?;
    let mut processors = processors_of(rt.alloc(), &machine, 64)?;
    Some(work_until_five(rt, &mut processors))
}

// No clause says that a letter comes, so there is a limit to how often it is waited for.
#[test]
fn a_message_crosses_between_threads(rt: HostRuntime) {
    assert!(rt; crosses_between_threads(&rt) == Some(true));
}

/// Whether the processor at this place takes turns until it finds nothing to do.
pub(crate) fn runs_idle(processors: &mut Vec<Processor<'_>>, at: usize) -> bool
    requires { AreOneFabric (map (λ p. p.port) processors.old.items) }
    ensures { AreOneFabric (map (λ p. p.port) processors.new.items) }
{
    if at >= processors.len() {
        return false;
    }
    work(&mut processors[at], 10) == Stop::Idle
}

/// Whether two processors have the logs of letters that came to rest. The send is kept at its
/// receiver's processor, which queues it, begins to receive, delivers it, and ends its thread.
pub(crate) fn have_rested(processors: &[Processor<'_>]) -> bool {
    processors.len() == 2
        && has_stamps(processors[0].log(), &[1, 2, 3, 7, 8])
        && has_stamps(processors[1].log(), &[4, 5, 6, 7])
        && processors[0].stop() == Stop::Idle
}
