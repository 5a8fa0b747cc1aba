// Processors in threads of the caller that may not wait. crates.txt gives this crate threads, and
// no leave to wait for one. That the prover accepts the crate shows that no call of these threads
// waits, which no clause says.
ghost use Rattle.std.specs.Prelude.{ℕ, ◌≡◌, length, slice_get, Some};
ghost use Rattle.l4_proc.specs.Working.{HasGoneOn};
ghost use Rattle.l4_proc.specs.declared.processor.Processor.{Processor as ProcessorOfMachine};

use crate::gathers::gather_once;
use crate::processors::{processors_of, work};
use crate::runs::{machine_of, passes};
use l4_proc::processor::Processor;
use l4_samples::CALLS;
use std::thread;
use std::thread::Threads;

// Makes a hundred calls, none of which waits.
fn work_on(processor: &mut Processor<'_>)
    ensures { HasGoneOn processor.old processor.new }
{
    for _ in 0..100u32 {
        work(processor, 64);
        thread::yield_now();
    }
}

// Makes these calls for the first half of the processors in one thread, and for the second half in
// another. Of two processors, each is in a thread of its own.
fn all_work_on<R: Threads + Sync>(rt: &R, processors: &mut [Processor<'_>])
    ensures for_each { length processors.new ≡ length processors.old }
    ensures each { (i : ℕ) (old new : ProcessorOfMachine) → slice_get processors.old i ≡ Some old → slice_get processors.new i ≡ Some new → HasGoneOn old new }
{
    thread::for_each_mut(
        rt,
        processors,
        2,
        &|_, processor: &mut Processor<'_>|
            ensures { HasGoneOn processor.entry.now processor.exit.now }
        { work_on(processor) },
    );
}

// How many turns two processors have taken, if they stand in their order and each has taken one.
fn turns_of_both(processors: &[Processor<'_>]) -> Option<u64> {
    if processors.len() != 2 || processors[0].cpu() != 0 || processors[1].cpu() != 1 {
        return None;
    }
    let (first, second) = (processors[0].turns(), processors[1].turns());
    if first == 0 || second == 0 {
        return None;
    }
    first.checked_add(second)
}

// Each processor comes back, whatever the other one does, and their steps are a history of the
// machine.
#[test]
fn without_wait(rt: HostRuntime) {
    let machine = machine_of(rt.alloc(), CALLS).expect(&rt, "a machine");
    let Some(mut processors) = processors_of(rt.alloc(), &machine, 64) else {
        panic!(rt; "no processors");
    };
    all_work_on(&rt, processors.as_mut_slice());
    let turns = turns_of_both(processors.as_slice());
    let outcome = gather_once(rt.alloc(), &machine, processors).ok();
    let outcome = outcome.expect(&rt, "an outcome");
    assert!(rt; Some(outcome.turns) == turns);
    assert!(rt; passes(rt.alloc(), &machine, &outcome));
}
