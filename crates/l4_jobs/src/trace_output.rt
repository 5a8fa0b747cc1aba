//! What is printed of a trace, up to its first step that is not possible.
ghost use Rattle.std.specs.Prelude.{◌≡◌, IfOk, None};
ghost use Rattle.l4_jobs.specs.Audits.{refusal_text};
ghost use Rattle.l4_jobs.specs.Outputs.{output_of};

use crate::done::Done;
use crate::fault::{Fault, line_of};
use l4_types::errors::NoMemory;
use std::alloc::Global;

/// What an audit or a chart prints of a trace.
#[derive(Drop)]
pub(crate) struct TraceOutput {
    pub(crate) lines: Vec<u8>,
    pub(crate) status: u8,
    /// The first step that is not possible, if anything is printed of such a trace.
    pub(crate) refused: Option<usize>,
}

// What is said of a step that is not possible.
fn refusal(alloc: Global, refused: Option<usize>) -> Result<Vec<u8>, NoMemory>
    ensures { IfOk result (λ said. said.items ≡ refusal_text refused) }
{
    match refused {
        None => Ok(Vec::new(alloc)),
        Some(step) => line_of(alloc, &Fault::Refused(step)),
    }
}

impl TraceOutput {
    /// The output of the job. The step that is not possible is said behind its lines.
    pub(crate) fn into_done<'a>(self, alloc: Global) -> Result<Done<'a>, NoMemory>
        ensures lines { IfOk result (λ done. (output_of done).lines ≡ self.lines.items) }
        ensures said { IfOk result (λ done. (output_of done).said ≡ refusal_text self.refused) }
        ensures status { IfOk result (λ done. (output_of done).status ≡ self.status) }
        ensures unrecorded { IfOk result (λ done. (output_of done).list ≡ None) }
    {
        Ok(Done {
            said: refusal(alloc, self.refused)?,
            lines: self.lines,
            list: None,
            status: self.status,
        })
    }
}
