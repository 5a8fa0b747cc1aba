//! Jobs on one thread of the host, where a run goes in rounds. What no thread can be started for,
//! as a library for other languages, does jobs in this way.
//!
//! `done` takes a handle for the sake of runs. `done_alone` takes none, and does all other jobs;
//! `in_rounds` leaves no run among them.
ghost use Rattle.std.specs.Prelude.{◌≡◌, IfErr, IfOk, None};
ghost use Rattle.l4_commands.specs.Files.{second_file_of};
ghost use Rattle.l4_jobs.specs.Jobs.{IsDone, IsFault};
ghost use Rattle.l4_jobs.specs.Outputs.{output_of};
ghost use Rattle.l4_jobs.specs.Rounds.{IsInRounds};

use crate::done::Done;
use crate::fault::Fault;
use crate::job::{Job, ReplayJob};
use crate::jobs::done_of;
use crate::reading::read_text;
use crate::streams::Source;
use l4_expect::expectations::Expectations;
use l4_explore::progress::Progress;
use l4_script::machine::Machine;
use std::alloc::Global;

/// What a job that is no run comes to, as `done` says it. No handle is needed for that. A run is
/// refused, as one that there is no memory for.
pub fn done_alone<'a, M: Source, S: Source, X: Source, P: Progress>(
    alloc: Global,
    job: &Job<'a>,
    machine: &mut M,
    second: &mut S,
    expects: &mut X,
    progress: &mut P,
) -> Result<Done<'a>, Fault<'a>>
    ensures ok { IfOk result (λ done. IsDone job.now (M.gives machine.old) (S.gives second.old)
        (X.gives expects.old) (output_of done)) }
    ensures err { IfErr result (IsFault job.now (M.gives machine.old) (S.gives second.old)
        (X.gives expects.old)) }
    ensures unread { second_file_of job.now ≡ None → second.new ≡ second.old }
{
    let text = read_text(alloc, job.file(), machine)?;
    let no_run = |_: &Machine, _, _: Option<&Expectations<'_>>| Err(Fault::NoMemory);
    done_of(
        alloc,
        job,
        text.as_slice(),
        second,
        expects,
        progress,
        no_run,
    )
}

/// The job that is done in rounds in the place of this one. In the place of a run it is the replay
/// of no entries, which goes on until rest for the turns of the run. Each other job is done as it
/// is.
pub fn in_rounds<'a>(job: &Job<'a>) -> Job<'a>
    ensures { IsInRounds job.now result }
{
    match *job {
        Job::Run(run) => Job::Replay(ReplayJob {
            file: run.file,
            schedule: "",
            then_rest: Some(run.turns),
            printed: run.printed,
            record_to: run.record_to,
            expected: run.expected,
        }),
        other => other,
    }
}
