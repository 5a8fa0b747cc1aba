// Runs of several processors, each in a host thread of its own. The host's threads decide which of
// its histories such a machine has, so the tests look for what each run must have. If no letter
// goes between processors, there is only one history: such runs are cases.
use crate::gathers::has;
use l4_audit::audit::{Audit, AuditFault, check};
use l4_machine::{Outcome, run};
use l4_proc::gate::{Gate, Open};
use l4_samples::{ACROSS, CALLS, endless};
use l4_script::machine::Machine;
use l4_trace::traces::trace;
use l4_types::reports::Ending;
use l4_types::steps::Step;
use std::alloc::Global;
use std::sync::atomic::{AtomicU64, Ordering};
use std::thread::Threads;
use std::{str, thread};

/// The machine of a text.
pub(crate) fn machine_of(alloc: Global, text: &str) -> Option<Machine> {
    Machine::parse(alloc, text.as_bytes()).ok()
}

/// The outcome of a run, if it has what every run must have.
pub(crate) fn comes_to<R: AllocGlobal + Threads + Sync, G: Gate + Sync>(
    rt: &R,
    text: &str,
    turns: u64,
    gate: &G,
) -> Option<Outcome> {
    let machine = machine_of(rt.alloc(), text)?;
    let outcome = run(rt, rt.alloc(), &machine, turns, gate).ok()?;
    if !is_right(rt.alloc(), &machine, turns, &outcome) {
        return None;
    }
    Some(outcome)
}

/// What the audit of a history finds.
pub(crate) fn audit_of(
    alloc: Global,
    machine: &Machine,
    history: &[Step],
) -> Result<Audit, AuditFault> {
    check(alloc, machine, history)
}

/// Whether the history of an outcome is one of the machine, and leads to the threads and sends that
/// the outcome reports. If the outcome is quiet, the history leads to a still world.
pub(crate) fn passes(alloc: Global, machine: &Machine, outcome: &Outcome) -> bool {
    let Ok(audit) = audit_of(alloc, machine, outcome.history.as_slice()) else {
        return false;
    };
    audit.threads.as_slice() == outcome.threads.as_slice()
        && audit.waiting.as_slice() == outcome.waiting.as_slice()
        && (outcome.ending == Ending::Spent || audit.ending == Ending::Quiet)
}

/// Whether an outcome of a run of this many turns has what every outcome must have. It passes.
/// Unless the run has come to rest, it has used up its turns, with at most one more for each other
/// processor.
pub(crate) fn is_right(alloc: Global, machine: &Machine, turns: u64, outcome: &Outcome) -> bool {
    passes(alloc, machine, outcome)
        && (outcome.ending == Ending::Quiet || outcome.turns >= turns)
        && outcome.turns.saturating_sub(turns) < u64::from(machine.cpus())
}

/// Holds turns 1 and 10 of each processor until the same turn of all others was reached.
#[derive(Drop)]
pub(crate) struct Meeting {
    cpus: u64,
    first: AtomicU64,
    tenth: AtomicU64,
    missed: AtomicU64,
}

impl Meeting {
    pub(crate) fn new(cpus: u8) -> Meeting {
        Meeting {
            cpus: u64::from(cpus),
            first: AtomicU64::new(0),
            tenth: AtomicU64::new(0),
            missed: AtomicU64::new(0),
        }
    }

    fn meet(&self, at: &AtomicU64) {
        at.fetch_add(1, Ordering::SeqCst);
        for look in 0..100_000_000u64 {
            if at.load(Ordering::SeqCst) >= self.cpus {
                return;
            }
            if look % 256 == 255 {
                thread::yield_now();
            }
        }
        self.missed.fetch_add(1, Ordering::SeqCst);
    }

    /// Whether all processors came to both meetings, and nobody waited in vain.
    pub(crate) fn was_kept(&self) -> bool {
        self.missed.load(Ordering::SeqCst) == 0
            && self.first.load(Ordering::SeqCst) == self.cpus
            && self.tenth.load(Ordering::SeqCst) == self.cpus
    }
}

impl Gate for Meeting {
    fn before(&self, _cpu: u8, turn: u64) {
        if turn == 1 {
            self.meet(&self.first);
        }
        if turn == 10 {
            self.meet(&self.tenth);
        }
    }
}

// Whether the processors of a run meet.
fn meet<R: AllocGlobal + Threads + Sync>(rt: &R, cpus: u8) -> Option<bool> {
    let text = endless(rt.alloc(), cpus, cpus).ok()?;
    let gate = Meeting::new(cpus);
    let turns = 10 * u64::from(cpus);
    let outcome = comes_to(rt, text.as_str(), turns, &gate)?;
    Some(outcome.turns == turns && outcome.ending == Ending::Spent && gate.was_kept())
}

// No clause says that host threads run side by side. If they do not, the looks of a gate that waits
// for all run out.
#[test]
fn both_at_work(rt: HostRuntime) {
    for cpus in [2, 16] {
        assert!(rt; meet(&rt, cpus) == Some(true), "{cpus}");
    }
}

// Notes the last turn of each of four processors, and how often each was asked for again. Notes too
// how often a turn was left out or fell back.
#[derive(Drop)]
struct Noted {
    last: [AtomicU64; 4],
    again: [AtomicU64; 4],
    missed: AtomicU64,
}

impl Gate for Noted {
    fn before(&self, cpu: u8, turn: u64) {
        let place = usize::from(cpu);
        let (Some(last), Some(again)) = (self.last.get(place), self.again.get(place)) else {
            self.missed.fetch_add(1, Ordering::SeqCst);
            return;
        };
        let before = last.swap(turn, Ordering::SeqCst);
        if turn == before {
            again.fetch_add(1, Ordering::SeqCst);
        } else if turn.checked_sub(before) != Some(1) {
            self.missed.fetch_add(1, Ordering::SeqCst);
        }
    }
}

fn none() -> AtomicU64 {
    AtomicU64::new(0)
}

impl Noted {
    fn new() -> Noted {
        Noted {
            last: [none(), none(), none(), none()],
            again: [none(), none(), none(), none()],
            missed: none(),
        }
    }

    // Whether this turn was the last that a processor was asked for, and none was asked for twice.
    fn has_ended_at(&self, cpu: usize, turn: u64) -> bool {
        let (Some(last), Some(again)) = (self.last.get(cpu), self.again.get(cpu)) else {
            return false;
        };
        last.load(Ordering::SeqCst) == turn && again.load(Ordering::SeqCst) == 0
    }

    // Whether each of the three busy processors of four was asked for this many turns, one after
    // the other. The idle processor was asked for its first turn.
    fn is_once_each(&self, turns: u64) -> bool {
        let is_idle = self.last[3].load(Ordering::SeqCst) == 1;
        is_idle
            && self.missed.load(Ordering::SeqCst) == 0
            && self.has_ended_at(0, turns)
            && self.has_ended_at(1, turns)
            && self.has_ended_at(2, turns)
    }
}

// Of 1,000 turns each processor may take 250 in the first round. One processor has nothing to do,
// so 250 turns are left. Of these each may take 63, then of 61 each 16, of 13 each 4, and of one
// each one. So each of the three busy processors is asked for 334 turns, one after the other. The
// idle one is asked for its first turn alone: it never gets as far as to try another one.
#[test]
fn each_turn_is_asked_for_once(rt: HostRuntime) {
    let text = endless(rt.alloc(), 4, 3).expect(&rt, "a text");
    let gate = Noted::new();
    let outcome = comes_to(&rt, text.as_str(), 1_000, &gate).expect(&rt, "an outcome");
    assert!(rt; outcome.turns == 1_002);
    assert!(rt; gate.is_once_each(334));
}

// Whether a run uses its turns up.
fn is_spent<R: AllocGlobal + Threads + Sync>(rt: &R, text: &str, turns: u64) -> bool {
    match comes_to(rt, text, turns, &Open) {
        Some(outcome) => outcome.ending == Ending::Spent,
        None => false,
    }
}

// Whether threads that go on for ever use up the turns, and each turn is a step. A single processor
// takes exactly as many turns as were asked for.
fn is_used_up<R: AllocGlobal + Threads + Sync>(rt: &R, cpus: u8, turns: u64) -> Option<bool> {
    let text = endless(rt.alloc(), cpus, cpus).ok()?;
    let outcome = comes_to(rt, text.as_str(), turns, &Open)?;
    let is_spent = outcome.ending == Ending::Spent;
    let are_steps = outcome.history.len() as u64 == outcome.turns;
    Some(is_spent && are_steps && (cpus > 1 || outcome.turns == turns))
}

#[test]
fn turns_are_used_up(rt: HostRuntime) {
    for cpus in [1, 2, 3, 16] {
        for turns in [1, 2, 15, 16, 17, 1_000] {
            assert!(rt;
                is_used_up(&rt, cpus, turns) == Some(true),
                "{cpus} {turns}"
            );
        }
    }
    for turns in [1, 2, 99, 100] {
        assert!(rt; is_spent(&rt, CALLS, turns), "{turns}");
    }
}

const ARRIVED: &str =
    "thread 1.1 ended 0 nil nil 0 a\nthread 2.1 ended 0 1.1 1.1 74001 a\nending quiet\n";

// Whether there is one delivery, and the number of turns fits the place of the wait.
fn has_arrived(alloc: Global, outcome: &Outcome) -> Option<bool> {
    let lines = trace(alloc, outcome.history.as_slice()).ok()?;
    let lines = str::from_utf8(lines.as_slice()).ok()?;
    let delivered = "\ndeliver 1.1#1 2.1 1.1 1.1 74001 a\n";
    if lines.matches(delivered).count() != 1 || lines.matches("deliver ").count() != 1 {
        return None;
    }
    let is_waited_for = lines.contains("queue 1.1#1\ndeliver ");
    let turns = if is_waited_for { 8 } else { 9 };
    Some(has(alloc, outcome, lines, ARRIVED, turns))
}

// The threads decide whether the wait or the send comes first. The sender's processor has five
// events: two instructions, the send, the letter that the send was taken, and the end. The
// receiver's processor has the wait and the end. If the wait comes first, it has one event more, in
// which the send is queued and taken; else two.
#[test]
fn a_word_arrives_in_each_run(rt: HostRuntime) {
    for _ in 0..20 {
        let outcome = comes_to(&rt, ACROSS, 1_000, &Open).expect(&rt, "an outcome");
        assert!(rt; has_arrived(rt.alloc(), &outcome) == Some(true));
    }
}

// Makes processor 1 look 1,000 times before each turn.
#[derive(Drop)]
struct Slow {
    looks: AtomicU64,
}

impl Gate for Slow {
    fn before(&self, cpu: u8, _turn: u64) {
        if cpu != 1 {
            return;
        }
        for _ in 0..1_000u32 {
            self.looks.load(Ordering::SeqCst);
        }
    }
}

#[test]
fn one_that_is_slow_is_waited_for(rt: HostRuntime) {
    let gate = Slow {
        looks: AtomicU64::new(0),
    };
    let outcome = comes_to(&rt, CALLS, 1_000, &gate).expect(&rt, "an outcome");
    assert!(rt; outcome.ending == Ending::Spent);
    assert!(rt; outcome.turns == 1_000 || outcome.turns == 1_001);
}
