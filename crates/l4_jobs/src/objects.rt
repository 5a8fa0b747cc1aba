//! What is printed, told as objects of JSON where that is asked for.
ghost use Rattle.std.specs.Prelude.{◌≡◌, IfOk};
ghost use Rattle.l4_jobs.specs.Objects.{is_retold, told};
ghost use Rattle.l4_jobs.specs.Outputs.{output_of};

use crate::done::Done;
use crate::job::Job;
use l4_json::lines::json_text;
use l4_types::errors::NoMemory;
use std::alloc::Global;

// Whether all lines of a job are told as objects once they are there.
fn is_retold(job: &Job<'_>) -> bool
    ensures { result ≡ is_retold job.now }
{
    match *job {
        // The parts of what these print are told one after the other.
        Job::Run(_) | Job::Replay(_) => false,
        Job::Next(next) => next.json,
        Job::Audit(audit) => audit.json,
        Job::Chart(_) => false,
        Job::Endings(search) => search.json,
        Job::Lint(lint) => lint.json,
        Job::Step(_) => false,
    }
}

/// Lines as they are, or the object of each.
pub(crate) fn lines_or_objects(
    alloc: Global,
    json: bool,
    lines: Vec<u8>,
) -> Result<Vec<u8>, NoMemory>
    ensures { IfOk result (λ objects. objects.items ≡ told json lines.items) }
{
    if json {
        json_text(alloc, lines.as_slice())
    } else {
        Ok(lines)
    }
}

/// What a job comes to, with its lines told as objects where they still are to be.
pub(crate) fn told_done<'a>(
    alloc: Global,
    job: &Job<'_>,
    done: Done<'a>,
) -> Result<Done<'a>, NoMemory>
    ensures { IfOk result (λ objects. output_of objects ≡ record (output_of done.entry) {
      lines = told (is_retold job.now) (output_of done.entry).lines;
    }) }
{
    let json = is_retold(job);
    Ok(Done {
        lines: lines_or_objects(alloc, json, done.lines)?,
        list: done.list,
        said: done.said,
        status: done.status,
    })
}
