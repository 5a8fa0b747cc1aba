//! What a job comes to, for what its sources give.
ghost use Rattle.std.specs.Prelude.{◌≡◌, ◌≢◌, ◌⊎◌, IfOk, IfErr, None, Ok, Some};
ghost use Rattle.std.specs.Option.{option_copied};
ghost use Rattle.l4_script.specs.Versions.{machine_of_text};
ghost use Rattle.l4_script.specs.declared.text.fault.TextFaultKind.TheVariants.{NoMemory as NoMemoryKind};
ghost use Rattle.l4_commands.specs.Files.{second_file_of};
ghost use Rattle.l4_jobs.specs.Expectations.{scope_of};
ghost use Rattle.l4_jobs.specs.Jobs.{IsDone, IsDoneFor, IsDoneOn, IsFault};
ghost use Rattle.l4_jobs.specs.Jobs.{IsFaultFor};
ghost use Rattle.l4_jobs.specs.Jobs.{IsFaultOn, IsFaultyDone, IsInLinesFor, IsTextFault};
ghost use Rattle.l4_jobs.specs.Outputs.{output_of};
ghost use Rattle.l4_jobs.specs.Inner.Runners.{MakesRuns};
ghost use Rattle.l4_jobs.specs.declared.fault.Fault.TheVariants.{NoMemory as OutOfMemory};

use crate::audits::audit_done;
use crate::charts::chart_done;
use crate::done::Done;
use crate::fault::Fault;
use crate::job::{Job, RunJob};
use crate::lints::{lint_done, list_lint_done};
use crate::nexts::next_done;
use crate::objects::told_done;
use crate::reading::{read_all, read_text};
use crate::runs::{replay_done, run_done};
use crate::searches::search_done;
use crate::steps::step_done;
use crate::streams::Source;
use l4_expect::expectations::Expectations;
use l4_expect::judging::Scope;
use l4_explore::progress::Progress;
use l4_script::machine::Machine;
use l4_script::text::{TextFault, TextFaultKind};
use std::alloc::Global;
use std::thread::Threads;

// What a job comes to in lines, on the machine of a text, where this is expected of it. `run` makes
// a run.
fn done_on<
    'a,
    S: Source,
    P: Progress,
    F: Fn(&Machine, RunJob<'a>, Option<&Expectations<'_>>) -> Result<Done<'a>, Fault<'a>>,
>(
    alloc: Global,
    job: &Job<'a>,
    text: &[u8],
    machine: &Machine,
    second: &mut S,
    expected: Option<&Expectations<'_>>,
    progress: &mut P,
    run: F,
) -> Result<Done<'a>, Fault<'a>>
    requires callable { F.IsAlwaysCallable run }
    requires runs { MakesRuns text.now (F.post run) }
    requires parsed { machine_of_text text.now ≡ Ok machine.now }
    ensures ok { IfOk result (λ done. IsDoneOn job.now text.now machine.now
        (S.gives second.old) (option_copied expected.entry) (output_of done)) }
    ensures err { IfErr result (λ fault. (fault ≡ OutOfMemory) ⊎
        IsFaultOn job.now machine.now (S.gives second.old) fault) }
    ensures unread { second_file_of job.now ≡ None → second.new ≡ second.old }
{
    match *job {
        Job::Run(asked) => run(machine, asked, expected),
        Job::Replay(replay) => replay_done(alloc, text, machine, &replay, second, expected),
        Job::Next(next) => next_done(alloc, machine, next.schedule, second),
        Job::Audit(audit) => audit_done(alloc, machine, audit.trace, audit.judged, second),
        Job::Chart(chart) => chart_done(alloc, text, machine, &chart, second),
        Job::Endings(search) => search_done(alloc, text, machine, &search, expected, progress),
        Job::Lint(lint) => list_lint_done(alloc, text, machine, &lint, second),
        Job::Step(step) => step_done(alloc, text, machine, &step, second),
    }
}

// Whether the report of one run or those of all endings have to meet what is expected.
fn scope_of(job: &Job<'_>) -> Scope
    ensures { result ≡ scope_of job.now }
{
    match job {
        Job::Endings(_) => Scope::Endings,
        _ => Scope::OneRun,
    }
}

// What a job comes to in lines, on the machine of a text. What is expected of it is read and judged
// first.
fn done_for<
    'a,
    S: Source,
    X: Source,
    P: Progress,
    F: Fn(&Machine, RunJob<'a>, Option<&Expectations<'_>>) -> Result<Done<'a>, Fault<'a>>,
>(
    alloc: Global,
    job: &Job<'a>,
    text: &[u8],
    machine: &Machine,
    second: &mut S,
    expects: &mut X,
    progress: &mut P,
    run: F,
) -> Result<Done<'a>, Fault<'a>>
    requires callable { F.IsAlwaysCallable run }
    requires runs { MakesRuns text.now (F.post run) }
    requires parsed { machine_of_text text.now ≡ Ok machine.now }
    ensures ok { IfOk result (λ done. IsInLinesFor job.now text.now (Ok machine.now)
        (S.gives second.old) (X.gives expects.old) (output_of done)) }
    ensures err { IfErr result (λ fault. (fault ≡ OutOfMemory) ⊎
        IsFaultFor job.now (Ok machine.now) (S.gives second.old) (X.gives expects.old) fault) }
    ensures unread { second_file_of job.now ≡ None → second.new ≡ second.old }
{
    let Some(name) = job.expected() else {
        return done_on(alloc, job, text, machine, second, None, progress, run);
    };
    let asked = read_all(alloc, name, expects)?;
    let expected = Expectations::parse(alloc, scope_of(job), asked.as_slice())?;
    done_on(
        alloc,
        job,
        text,
        machine,
        second,
        Some(&expected),
        progress,
        run,
    )
}

// What a job comes to in lines for a text with a fault.
fn done_without<'a>(
    alloc: Global,
    job: &Job<'_>,
    text: &[u8],
    fault: TextFault,
) -> Result<Done<'a>, Fault<'a>>
    ensures ok { IfOk result (λ done. IsFaultyDone job.now text.now (output_of done)) }
    ensures declared { IfOk result (λ done. fault.kind ≢ NoMemoryKind) }
    ensures err { IfErr result (λ found. (found ≡ OutOfMemory) ⊎
        IsTextFault job.now fault found) }
{
    match (job, fault.kind) {
        (_, TextFaultKind::NoMemory) => Err(Fault::NoMemory),
        (Job::Lint(lint), _) => Ok(lint_done(alloc, lint.shown_name(), text)?),
        _ => Err(Fault::from(fault)),
    }
}

// What a job comes to for a text, which is parsed first. `run` makes a run.
pub(crate) fn done_of<
    'a,
    S: Source,
    X: Source,
    P: Progress,
    F: Fn(&Machine, RunJob<'a>, Option<&Expectations<'_>>) -> Result<Done<'a>, Fault<'a>>,
>(
    alloc: Global,
    job: &Job<'a>,
    text: &[u8],
    second: &mut S,
    expects: &mut X,
    progress: &mut P,
    run: F,
) -> Result<Done<'a>, Fault<'a>>
    requires callable { F.IsAlwaysCallable run }
    requires runs { MakesRuns text.now (F.post run) }
    ensures ok { IfOk result (λ done. IsDoneFor job.now text.now (machine_of_text text.now)
        (S.gives second.old) (X.gives expects.old) (output_of done)) }
    ensures err { IfErr result (λ fault. (fault ≡ OutOfMemory) ⊎
        IsFaultFor job.now (machine_of_text text.now) (S.gives second.old)
        (X.gives expects.old) fault) }
    ensures unread { second_file_of job.now ≡ None → second.new ≡ second.old }
{
    let done = match Machine::parse(alloc, text) {
        Ok(machine) => done_for(alloc, job, text, &machine, second, expects, progress, run)?,
        Err(fault) => done_without(alloc, job, text, fault)?,
    };
    Ok(told_done(alloc, job, done)?)
}

/// What a job comes to, for what its sources give: that of the machine text, that of the trace or
/// of the list, and that of what is expected.
///
/// The machine text is read and judged first, then what is expected, and then the turns, the list,
/// the trace or the limits of a search. Nothing is read before that. A replay or a lint whose list
/// is in a file reads that list; an audit and a chart read a trace.
///
/// In a run several processors may work at the same time, each in a host thread. So two runs of
/// several processors may differ, and each is lawful. Each history that a run may have is that of
/// some replay. In a search for endings `progress` hears how far the search has come, and that it
/// has ended.
pub fn done<'a, R: Threads + Sync, M: Source, S: Source, X: Source, P: Progress>(
    rt: &R,
    alloc: Global,
    job: &Job<'a>,
    machine: &mut M,
    second: &mut S,
    expects: &mut X,
    progress: &mut P,
) -> Result<Done<'a>, Fault<'a>>
    ensures ok { IfOk result (λ done. IsDone job.now (M.gives machine.old) (S.gives second.old)
        (X.gives expects.old) (output_of done)) }
    ensures err { IfErr result (IsFault job.now (M.gives machine.old) (S.gives second.old)
        (X.gives expects.old)) }
    ensures unread { second_file_of job.now ≡ None → second.new ≡ second.old }
{
    let text = read_text(alloc, job.file(), machine)?;
    done_for_text(rt, alloc, job, text.as_slice(), second, expects, progress)
}

// What a job comes to for a text, in which runs start host threads.
pub(crate) fn done_for_text<'a, R: Threads + Sync, S: Source, X: Source, P: Progress>(
    rt: &R,
    alloc: Global,
    job: &Job<'a>,
    text: &[u8],
    second: &mut S,
    expects: &mut X,
    progress: &mut P,
) -> Result<Done<'a>, Fault<'a>>
    ensures ok { IfOk result (λ done. IsDoneFor job.now text.now (machine_of_text text.now)
        (S.gives second.old) (X.gives expects.old) (output_of done)) }
    ensures err { IfErr result (λ fault. (fault ≡ OutOfMemory) ⊎
        IsFaultFor job.now (machine_of_text text.now) (S.gives second.old)
        (X.gives expects.old) fault) }
    ensures unread { second_file_of job.now ≡ None → second.new ≡ second.old }
{
    let run = |machine: &Machine, run, expected: Option<&Expectations<'_>>| {
        run_done(rt, alloc, text, machine, &run, expected)
    };
    done_of(alloc, job, text, second, expects, progress, run)
}
