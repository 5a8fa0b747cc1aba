//! The audit of the trace that a command prints.

use crate::case::Case;
use crate::outcome::Outcome;
use l4_jobs::job::{AuditJob, Job, Judged, NO_EXTRAS, TRACE_ALONE};
use l4_jobs::perform::perform;
use std::alloc::{AllocError, Global};
use std::io;
use std::thread::Threads;

// Whether a job prints a trace, and nothing else, where it is done.
fn has_trace(job: &Job<'_>) -> bool {
    match *job {
        Job::Run(run) => run.printed == TRACE_ALONE,
        Job::Replay(replay) => replay.printed == TRACE_ALONE,
        _ => false,
    }
}

// Whether an audit passed all lines of a trace, and what it says of the rest goes with the status
// of the run: nothing is left to do where that is 0.
fn is_whole(alloc: Global, passed: &[u8], trace: &[u8], status: u8) -> Result<bool, AllocError> {
    let lines = trace.iter().filter(|byte| **byte == b'\n').count();
    let quiet = format!(in alloc; "passed {lines} quiet\n")?;
    let spent = format!(in alloc; "passed {lines} spent\n")?;
    Ok(passed == quiet.as_bytes() || status != 0 && passed == spent.as_bytes())
}

/// Audits the trace that a job printed, if it did. What does not pass is a line of faults, which no
/// case wants there.
pub fn audit<R: AllocGlobal + Threads + Sync>(
    rt: &R,
    case: &Case<'_>,
    job: &Job<'_>,
    done: &mut Outcome,
) -> io::Result<()> {
    if done.status == 1 || !has_trace(job) {
        return Ok(());
    }
    let job = Job::Audit(AuditJob {
        file: case.name,
        trace: "its trace",
        judged: Judged {
            report: false,
            explain: false,
            extras: NO_EXTRAS,
        },
        json: false,
    });
    let mut text = case.text;
    let mut trace = done.output.as_slice();
    let mut passed = Vec::new(rt.alloc());
    let faults = &mut done.faults;
    let status = perform(
        rt,
        rt.alloc(),
        &job,
        &mut text,
        &mut trace,
        &mut passed,
        faults,
    );
    let passed = passed.as_slice();
    if status == 0 && !is_whole(rt.alloc(), passed, done.output.as_slice(), done.status)? {
        done.faults.extend_from_slice(passed)?;
    }
    Ok(())
}
