//! Processors that work at the same time.
ghost use Rattle.std.specs.Prelude.{◌≡◌, ◌↔◌, ◌<◌, ◌+◌, IsTrue, length};
ghost use Rattle.l4_proc.specs.Working.{turns_of, ExtendsOn, HaveWorkedOn, IsStopped};
ghost use Rattle.l4_proc.specs.declared.stops.Stop.TheVariants as stop;

use crate::gate::Gate;
use crate::processor::Processor;
use crate::stops::Stop;
use std::sync::atomic::{AtomicUsize, Ordering};
use std::thread;
use std::thread::Threads;

// A processor that finds nothing looks again at most this often in a row: about as long as a letter
// takes to arrive. What arrives later is for the next round. So nobody waits where the host runs a
// thread late or not at all.
const LOOKS: u32 = 200;

// It looks again this often while nobody is at work: another processor may be about to take a
// letter.
const LAST_LOOKS: u32 = 2;

// Looks on with a processor that has found nothing, until it takes a turn. Returns whether it did.
// It gives up if the processor stops for another reason, if nobody has been at work for a while,
// and after `LOOKS` looks. So it waits for nobody, whatever the others do.
fn look_on<G: Gate>(processor: &mut Processor<'_>, gate: &G, at_work: &AtomicUsize) -> bool
    requires idle { processor.old.worker.stop ≡ stop.Idle }
    requires stopped { IsStopped processor.old stop.Idle }
    ensures worked { ExtendsOn 1 processor.old processor.new }
    ensures found { IsTrue result ↔ (processor.new.worker.stop ≡ stop.Used) }
{
    let mut last_looks = 0;
    for _ in 0..LOOKS {
        if at_work.load(Ordering::SeqCst) > 0 {
            last_looks = 0;
        }
        let stop = processor.work(1, gate);
        if stop != Stop::Idle {
            return stop == Stop::Used;
        }
        if last_looks == LAST_LOOKS {
            return false;
        }
        last_looks += 1;
        thread::yield_now();
    }
    false
}

// Takes at most `turns` turns, and returns how many.
fn take_turns<G: Gate>(processor: &mut Processor<'_>, turns: u64, gate: &G) -> u64
    ensures worked { ExtendsOn turns processor.old processor.new }
    ensures count { turns_of processor.new ≡ turns_of processor.old + result }
{
    let before = processor.turns();
    processor.work(turns, gate);
    processor.turns() - before
}

// Takes at most `turns` turns, while others may be at work too. The processor counts as at work
// once it has begun. No promise rests on how many are at work.
fn work_among<G: Gate>(processor: &mut Processor<'_>, turns: u64, gate: &G, at_work: &AtomicUsize)
    ensures { ExtendsOn turns processor.old processor.new }
{
    at_work.fetch_add(1, Ordering::SeqCst);
    let mut left = turns - take_turns(processor, turns, gate);
    at_work.fetch_sub(1, Ordering::SeqCst);
    while processor.stop() == Stop::Idle {
        if !look_on(processor, gate, at_work) {
            return;
        }
        at_work.fetch_add(1, Ordering::SeqCst);
        left -= 1;
        left -= take_turns(processor, left, gate);
        at_work.fetch_sub(1, Ordering::SeqCst);
    }
}

// Each takes at most `turns` turns, in order, on the thread of the caller.
fn work_in_order<R: Threads + Sync, G: Gate + Sync>(
    rt: &R,
    processors: &mut [Processor<'_>],
    turns: u64,
    gate: &G,
)
    ensures { HaveWorkedOn turns processors.old processors.new }
{
    thread::for_each_mut(
        rt,
        processors,
        1,
        &|_, processor: &mut Processor<'_>|
            ensures { ExtendsOn turns processor.entry.now processor.exit.now }
        {
            take_turns(processor, turns, gate);
        },
    );
}

// Each takes at most `turns` turns, in a host thread of its own.
fn work_side_by_side<R: Threads + Sync, G: Gate + Sync>(
    rt: &R,
    processors: &mut [Processor<'_>],
    turns: u64,
    gate: &G,
)
    requires { 0 < length processors.old }
    ensures { HaveWorkedOn turns processors.old processors.new }
{
    let threads = processors.len();
    let at_work = AtomicUsize::new(0);
    thread::for_each_mut(
        rt,
        processors,
        threads,
        &|_, processor: &mut Processor<'_>|
            ensures { ExtendsOn turns processor.entry.now processor.exit.now }
        { work_among(processor, turns, gate, &at_work) },
    );
}

// How many of these processors have something to do, and did not run out of it when they worked
// last.
fn count_busy(processors: &[Processor<'_>]) -> usize {
    processors
        .iter()
        .filter(|processor| processor.stop() == Stop::Used && processor.has_work())
        .count()
}

/// Each processor takes at most `turns` turns. If two of them or more have something to do, and did
/// not run out of it when they worked last, each works in a host thread of its own, one of them on
/// the thread of the caller. Else they work in order on the thread of the caller: what they have to
/// do costs less than starting threads.
///
/// A processor that finds nothing to do looks on for a while if another one is at work, so that a
/// letter that comes meanwhile does not cost a call; but it need not be taken in this call. Where
/// the host starts fewer threads, one thread works for several processors.
///
/// Each remembers why it stopped (`Processor::stop`).
pub fn work_together<R: Threads + Sync, G: Gate + Sync>(
    rt: &R,
    processors: &mut [Processor<'_>],
    turns: u64,
    gate: &G,
)
    ensures { HaveWorkedOn turns processors.old processors.new }
{
    if processors.len() < 2 || count_busy(processors) < 2 {
        work_in_order(rt, processors, turns, gate);
    } else {
        work_side_by_side(rt, processors, turns, gate);
    }
}
