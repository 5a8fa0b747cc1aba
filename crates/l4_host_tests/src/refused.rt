// Calls on whole machines and processors to which memory may be refused. Each call is made, and made
// again if memory was refused: the second gives what the first would have given. The work of
// processors and their outcome, which may be refused too, are tested by their rows. What the program
// does where memory is refused is tried with commands of the cases (`bench/refused_commands.py`).
ghost use Rattle.std.specs.Prelude.{IfOk, OnOk, map};
ghost use Rattle.l4_core_model.specs.Runs.{Run};
ghost use Rattle.l4_replay.specs.UnderWay.{HasRun, IsRun};
ghost use Rattle.l4_mail.specs.Ports.{AreOneFabric};

use crate::gathers::has;
use crate::processors::{have_rested, processors_of, runs_idle, tick, work};
use crate::runs::{audit_of, is_right, machine_of};
use l4_audit::audit::{Audit, AuditFault};
use l4_audit::auditor::Auditor;
use l4_endings::{FoundEndings, endings};
use l4_explore::progress::Unheard;
use l4_machine::{Outcome, replay, run};
use l4_mail::rests::RestFault;
use l4_proc::gate::Open;
use l4_proc::processor::Processor;
use l4_proc::resting::rest;
use l4_proc::stops::{ProcFault, Stop};
use l4_replay::entries::entries_of;
use l4_replay::{Entry, RunFault, Walk};
use l4_samples::{ACROSS, ACROSS_TRACE, PING, call_begins, call_ends};
use l4_script::machine::Machine;
use l4_told::{FinalState, replay_told, run_told};
use l4_types::errors::NoMemory;
use l4_types::step_ref::StepRef;
use l4_types::steps::Step;
use std::alloc::Global;
use std::process::Abort;
use std::thread::Threads;

const REPORT: &str =
    "thread 1.1 ended 0 nil nil 0 a\nthread 2.1 ended 0 1.1 1.1 74001 a\nending quiet\n";

// A thread that deletes one of another processor.
const DELETION: &str = "l4 1 64
cpus 2
thread 1.1 cpu 0 space 1
delete 2.1
thread 2.1 cpu 1 space 2
ipc nil any never never
";

// The entries of a replay. A turn in which there is nothing to do does not count.
const SCHEDULE: [u8; 11] = [1, 1, 0, 0, 0, 1, 0, 0, 1, 0, 1];

// The processors of a machine, made again if memory was refused.
fn assembled<'m, R: AllocGlobal + Print>(
    rt: &R,
    machine: &'m Machine,
) -> Option<Vec<Processor<'m>>> {
    call_begins(rt, "assemble");
    let made = processors_of(rt.alloc(), machine, 64);
    call_ends(rt);
    match made {
        Some(processors) => Some(processors),
        None => processors_of(rt.alloc(), machine, 64),
    }
}

// Whether two processors stand in the order of their numbers, and have done nothing.
fn are_fresh(processors: &[Processor<'_>]) -> bool {
    for (cpu, processor) in processors.iter().enumerate() {
        if usize::from(processor.cpu()) != cpu {
            return false;
        }
        if !processor.log().is_empty() || processor.turns() != 0 {
            return false;
        }
    }
    processors.len() == 2
}

#[test]
fn processors_are_assembled(rt: HostRuntime) {
    let machine = machine_of(rt.alloc(), ACROSS).expect(&rt, "a machine");
    let processors = assembled(&rt, &machine).expect(&rt, "processors");
    assert!(rt; are_fresh(processors.as_slice()));
}

// The clock of a processor, and how many events it has had.
fn clock_and_events(processor: &Processor<'_>) -> (u64, usize) {
    (processor.core().clock(), processor.log().len())
}

// Whether the clock of a processor advances, by a second call if memory was refused. A tick that is
// refused changes nothing.
fn is_ticked<R: Print>(rt: &R, processor: &mut Processor<'_>, to: u64) -> bool {
    let before = clock_and_events(processor);
    call_begins(rt, "tick");
    let told = tick(processor, to);
    call_ends(rt);
    let has_stayed = told == Err(ProcFault::NoMemory) && clock_and_events(processor) == before;
    let is_done = told.is_ok() || (has_stayed && tick(processor, to).is_ok());
    is_done && processor.core().clock() == to
}

// Whether the clock has advanced 19 times, and the one thread of the processor then begins to wait.
fn begins_to_wait(processor: &mut Processor<'_>) -> bool {
    work(processor, 2) == Stop::Idle && processor.turns() == 1 && processor.log().len() == 20
}

#[test]
fn a_clock_goes_on(rt: HostRuntime) {
    let machine = machine_of(rt.alloc(), ACROSS).expect(&rt, "a machine");
    let processors = processors_of(rt.alloc(), &machine, 1);
    let mut processors = processors.expect(&rt, "processors");
    let mut processor = processors.pop().expect(&rt, "a processor");
    for to in 1..20 {
        assert!(rt; is_ticked(&rt, &mut processor, to));
    }
    assert!(rt; begins_to_wait(&mut processor));
}

fn rest_once(alloc: Global, processors: &mut Vec<Processor<'_>>) -> Result<bool, RestFault>
    requires { AreOneFabric (map (λ p. p.port) processors.old.items) }
    ensures { AreOneFabric (map (λ p. p.port) processors.new.items) }
{
    rest(alloc, processors)
}

// Whether letters were brought to rest, by a second call if memory was refused.
fn rested<R: AllocGlobal + Abort + Print>(
    rt: &R,
    processors: &mut Vec<Processor<'_>>,
) -> Option<bool>
    requires { AreOneFabric (map (λ p. p.port) processors.old.items) }
    ensures { AreOneFabric (map (λ p. p.port) processors.new.items) }
{
    call_begins(rt, "rest");
    let told = rest_once(rt.alloc(), processors);
    call_ends(rt);
    match told {
        Ok(all) => Some(all),
        Err(fault) => {
            assert!(rt; fault == RestFault::NoMemory);
            rest_once(rt.alloc(), processors).ok()
        }
    }
}

// Whether letters come to rest once the processors are idle. There are no letters at first.
fn come_to_rest<R: AllocGlobal + Abort + Print>(rt: &R, processors: &mut Vec<Processor<'_>>) -> bool
    requires { AreOneFabric (map (λ p. p.port) processors.old.items) }
    ensures { AreOneFabric (map (λ p. p.port) processors.new.items) }
{
    rested(rt, processors) == Some(true)
        && runs_idle(processors, 0)
        && rested(rt, processors) == Some(false)
        && runs_idle(processors, 1)
        && runs_idle(processors, 0)
        && rested(rt, processors) == Some(true)
}

fn drop_last(processors: &mut Vec<Processor<'_>>)
    requires { AreOneFabric (map (λ p. p.port) processors.old.items) }
    ensures { AreOneFabric (map (λ p. p.port) processors.new.items) }
{
    let _last = processors.pop();
}

// Whether the call notices that the last of two processors is missing.
fn is_missed(alloc: Global, processors: &mut Vec<Processor<'_>>) -> bool
    requires { AreOneFabric (map (λ p. p.port) processors.old.items) }
{
    drop_last(processors);
    rest_once(alloc, processors) == Err(RestFault::Numbers) && processors.len() == 1
}

#[test]
fn letters_come_to_rest(rt: HostRuntime) {
    let machine = machine_of(rt.alloc(), ACROSS).expect(&rt, "a machine");
    let Some(mut processors) = processors_of(rt.alloc(), &machine, 1) else {
        panic!(rt; "no processors");
    };
    assert!(rt; come_to_rest(&rt, &mut processors));
    assert!(rt; have_rested(processors.as_slice()));
    assert!(rt; is_missed(rt.alloc(), &mut processors));
}

fn run_once<R: AllocGlobal + Threads + Sync>(
    rt: &R,
    machine: &Machine,
) -> Result<Outcome, RunFault> {
    run(rt, rt.alloc(), machine, 1_000, &Open)
}

// The outcome of a run, by a second call if memory was refused.
fn ran<R: AllocGlobal + Threads + Sync + Print>(
    rt: &R,
    machine: &Machine,
) -> Result<Outcome, RunFault> {
    call_begins(rt, "run");
    let told = run_once(rt, machine);
    call_ends(rt);
    match told {
        Err(RunFault::NoMemory) => run_once(rt, machine),
        told => told,
    }
}

#[test]
fn a_machine_runs(rt: HostRuntime) {
    let machine = machine_of(rt.alloc(), ACROSS).expect(&rt, "a machine");
    let outcome = ran(&rt, &machine).ok().expect(&rt, "an outcome");
    assert!(rt; is_right(rt.alloc(), &machine, 1_000, &outcome));
    assert!(rt; outcome.turns == 8 || outcome.turns == 9);
    assert!(rt; outcome.waiting.is_empty());
}

// A run of a machine whose history is told.
#[derive(Drop)]
struct ToldRun {
    history: Vec<Step>,
    state: FinalState,
}

fn run_told_once<R: AllocGlobal + Threads + Sync>(
    rt: &R,
    machine: &Machine,
) -> Result<ToldRun, RunFault> {
    let mut history = Vec::new(rt.alloc());
    let state = run_told(rt, rt.alloc(), machine, 1_000, &mut history)?;
    Ok(ToldRun { history, state })
}

// A told run, by a second call if memory was refused.
fn told_run<R: AllocGlobal + Threads + Sync + Print>(
    rt: &R,
    machine: &Machine,
) -> Result<ToldRun, RunFault> {
    call_begins(rt, "run_told");
    let told = run_told_once(rt, machine);
    call_ends(rt);
    match told {
        Err(RunFault::NoMemory) => run_told_once(rt, machine),
        told => told,
    }
}

fn replay_told_once(
    alloc: Global,
    machine: &Machine,
    entries: &[Entry],
) -> Result<ToldRun, RunFault> {
    let mut history = Vec::new(alloc);
    let state = replay_told(alloc, machine, entries, &mut history)?;
    Ok(ToldRun { history, state })
}

// A told replay, by a second call if memory was refused.
fn told_replay<R: AllocGlobal + Print>(
    rt: &R,
    machine: &Machine,
    entries: &[Entry],
) -> Result<ToldRun, RunFault> {
    call_begins(rt, "replay_told");
    let told = replay_told_once(rt.alloc(), machine, entries);
    call_ends(rt);
    match told {
        Err(RunFault::NoMemory) => replay_told_once(rt.alloc(), machine, entries),
        told => told,
    }
}

// Whether a told run came to what an outcome has.
fn came_to(told: &ToldRun, outcome: &Outcome) -> bool {
    told.history.as_slice() == outcome.history.as_slice()
        && told.state.threads.as_slice() == outcome.threads.as_slice()
        && told.state.waiting.is_empty()
        && told.state.ending == outcome.ending
        && told.state.turns == outcome.turns
}

#[test]
fn a_history_is_told(rt: HostRuntime) {
    let machine = machine_of(rt.alloc(), PING).expect(&rt, "a machine");
    let outcome = run_once(&rt, &machine).ok().expect(&rt, "an outcome");
    let told = told_run(&rt, &machine).ok().expect(&rt, "a told run");
    assert!(rt; came_to(&told, &outcome));
    let told = told_replay(&rt, &machine, &[Entry::Turn(0); 20])
        .ok()
        .expect(&rt, "a replay");
    assert!(rt; came_to(&told, &outcome));
}

fn replay_once(alloc: Global, machine: &Machine) -> Result<Outcome, RunFault> {
    replay(alloc, machine, &SCHEDULE)
}

// The outcome of the replay of the schedule, by a second call if memory was refused.
fn replayed<R: AllocGlobal + Print>(rt: &R, machine: &Machine) -> Result<Outcome, RunFault> {
    call_begins(rt, "replay");
    let told = replay_once(rt.alloc(), machine);
    call_ends(rt);
    match told {
        Err(RunFault::NoMemory) => replay_once(rt.alloc(), machine),
        told => told,
    }
}

// Of the second machine a thread is deleted, so an audit finds the world of its replay.
#[test]
fn a_history_across_is_told(rt: HostRuntime) {
    for text in [ACROSS, DELETION] {
        let machine = machine_of(rt.alloc(), text).expect(&rt, "a machine");
        let outcome = replay_once(rt.alloc(), &machine)
            .ok()
            .expect(&rt, "an outcome");
        let entries = entries_of(rt.alloc(), &SCHEDULE)
            .ok()
            .expect(&rt, "entries");
        let told = told_replay(&rt, &machine, entries.as_slice())
            .ok()
            .expect(&rt, "a replay");
        assert!(rt; came_to(&told, &outcome));
    }
}

// A core run of a machine goes on by the entry that a number stands for.
fn goes_on(walk: &mut Walk<'_>, machine: &Machine, number: u8) -> Result<(), NoMemory>
    requires { (r : Run) × IsRun machine.now r walk.old }
    ensures { OnOk result ((r : Run) × IsRun machine.now r walk.new) }
{
    let entry = Entry::of_number(number);
    if !entry.is_of(machine) || walk.events() >= SCHEDULE.len() as u64 {
        return Ok(());
    }
    walk.take(entry)
}

// A core run of a machine after the entries of the schedule.
fn walked<'m>(alloc: Global, machine: &'m Machine) -> Result<Walk<'m>, NoMemory>
    ensures { IfOk result HasRun }
{
    let mut walk = Walk::new(alloc, machine)?;
    for number in SCHEDULE {
        goes_on(&mut walk, machine, number)?;
    }
    Ok(walk)
}

// The core run of `walked`, made anew if memory was refused.
fn walked_again<'m, R: AllocGlobal + Print>(
    rt: &R,
    machine: &'m Machine,
) -> Result<Walk<'m>, NoMemory>
    ensures { IfOk result HasRun }
{
    call_begins(rt, "Walk");
    let walk = walked(rt.alloc(), machine);
    call_ends(rt);
    match walk {
        Ok(walk) => Ok(walk),
        Err(NoMemory) => walked(rt.alloc(), machine),
    }
}

// Whether that core run has come to rest in as many events as the replay.
fn has_come_to_rest<R: AllocGlobal + Print>(rt: &R, machine: &Machine) -> bool {
    match walked_again(rt, machine) {
        Ok(walk) => walk.events() == 8 && walk.is_at_rest(),
        Err(NoMemory) => false,
    }
}

#[test]
fn a_core_run_goes_on(rt: HostRuntime) {
    let machine = machine_of(rt.alloc(), ACROSS).expect(&rt, "a machine");
    assert!(rt; has_come_to_rest(&rt, &machine));
}

// What the audit of a history finds, by a second call if memory was refused.
fn audited<R: AllocGlobal + Print>(
    rt: &R,
    machine: &Machine,
    history: &[Step],
) -> Result<Audit, AuditFault> {
    call_begins(rt, "check");
    let told = audit_of(rt.alloc(), machine, history);
    call_ends(rt);
    match told {
        Err(AuditFault::NoMemory) => audit_of(rt.alloc(), machine, history),
        told => told,
    }
}

// Whether an audit finds what an outcome reports, and no send that waits.
fn is_confirmed(outcome: &Outcome, audit: &Audit) -> bool {
    audit.threads.as_slice() == outcome.threads.as_slice()
        && audit.waiting.is_empty()
        && audit.ending == outcome.ending
}

#[test]
fn a_schedule_is_replayed_and_audited(rt: HostRuntime) {
    let machine = machine_of(rt.alloc(), ACROSS).expect(&rt, "a machine");
    let outcome = replayed(&rt, &machine).ok().expect(&rt, "an outcome");
    assert!(rt; has(rt.alloc(), &outcome, ACROSS_TRACE, REPORT, 8));
    let audit = audited(&rt, &machine, outcome.history.as_slice());
    let audit = audit.ok().expect(&rt, "an audit");
    assert!(rt; is_confirmed(&outcome, &audit));
}

fn possible(alloc: Global, auditor: &Auditor<'_>) -> Result<Vec<Step>, NoMemory> {
    auditor.possible(alloc)
}

// The steps that are possible, listed again if memory was refused.
fn listed<R: AllocGlobal + Print>(rt: &R, auditor: &Auditor<'_>) -> Result<Vec<Step>, NoMemory> {
    call_begins(rt, "possible");
    let steps = possible(rt.alloc(), auditor);
    call_ends(rt);
    match steps {
        Ok(steps) => Ok(steps),
        Err(NoMemory) => possible(rt.alloc(), auditor),
    }
}

// How many steps are possible, if this step is one of them.
fn possible_beside<R: AllocGlobal + Print>(
    rt: &R,
    auditor: &Auditor<'_>,
    step: &Step,
) -> Option<usize> {
    let steps = listed(rt, auditor).ok()?;
    if !steps.as_slice().contains(step) {
        return None;
    }
    Some(steps.len())
}

// Whether so many steps are possible, this one among them, and it is taken.
fn is_taken<R: AllocGlobal + Print>(
    rt: &R,
    auditor: &mut Auditor<'_>,
    step: &Step,
    possible: usize,
) -> bool {
    possible_beside(rt, auditor, step) == Some(possible)
        && auditor.step(&StepRef::from(step)).is_ok()
}

// How many steps are possible before each step of the replay. Both threads can go on at first and at
// last, and only the sender between.
const POSSIBLE: [usize; 8] = [2, 1, 1, 1, 1, 1, 2, 1];

#[test]
fn possible_steps_are_listed(rt: HostRuntime) {
    let machine = machine_of(rt.alloc(), ACROSS).expect(&rt, "a machine");
    let outcome = replay_once(rt.alloc(), &machine).ok();
    let outcome = outcome.expect(&rt, "an outcome");
    let auditor = Auditor::new(rt.alloc(), &machine).ok();
    let mut auditor = auditor.expect(&rt, "an auditor");
    for (step, count) in outcome.history.iter().zip(POSSIBLE.iter()) {
        assert!(rt; is_taken(&rt, &mut auditor, step, *count));
    }
    let left = listed(&rt, &auditor).ok().expect(&rt, "steps");
    assert!(rt; left.is_empty());
}

fn search(alloc: Global, machine: &Machine) -> Result<FoundEndings, NoMemory> {
    endings(alloc, machine, 100, 100, &mut Unheard)
}

// The endings of a machine, looked for again if memory was refused.
fn searched<R: AllocGlobal + Print>(rt: &R, machine: &Machine) -> Result<FoundEndings, NoMemory> {
    call_begins(rt, "endings");
    let found = search(rt.alloc(), machine);
    call_ends(rt);
    match found {
        Ok(found) => Ok(found),
        Err(NoMemory) => search(rt.alloc(), machine),
    }
}

#[test]
fn endings_are_looked_for(rt: HostRuntime) {
    let machine = machine_of(rt.alloc(), PING).expect(&rt, "a machine");
    let found = searched(&rt, &machine).ok().expect(&rt, "endings");
    assert!(rt; found.is_whole && found.states == 7 && found.endings.len() == 1);
}
