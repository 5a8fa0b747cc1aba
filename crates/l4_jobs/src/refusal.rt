//! Answering words that ask for no job.
ghost use Rattle.std.specs.Prelude.{◌≡◌};
ghost use Rattle.l4_jobs.specs.Refusals.{Refuses};

use crate::fault::{Fault, report};
use crate::streams::Sink;
use crate::words::WordsFault;
use std::alloc::Global;

/// Answers words that ask for no job, and returns the exit status. It is 0 where help was written,
/// and 2 for wrong usage. It is 1 where help could not be written or memory was refused.
pub fn refuse<W: Sink, E: Sink>(
    alloc: Global,
    fault: &WordsFault,
    out: &mut W,
    faults: &mut E,
) -> u8
    ensures { Refuses fault.now (W.takes out.old out.new) (out.new ≡ out.old)
        (E.takes faults.old faults.new) (faults.new ≡ faults.old) result }
{
    match fault {
        WordsFault::Help(text) => match out.put(text.as_bytes()) {
            Ok(()) => 0,
            Err(_) => report(alloc, faults, &Fault::Write),
        },
        WordsFault::Usage(text) => {
            // Where this can't be written, only the status says so.
            let _ = faults.put(text.as_bytes());
            2
        }
        WordsFault::NoMemory => report(alloc, faults, &Fault::NoMemory),
    }
}
