//! What the lines before a line say about it.
ghost use Rattle.std.specs.Prelude.{◌≡◌};
ghost use Rattle.l4_script.specs.Inner.Stages.{stage_of};
ghost use Rattle.l4_lint.specs.Contexts.{lines_in, context_at};
ghost use Rattle.l4_lint.specs.Inner.Views.{context_of};

use crate::hints::Lines;
use l4_script::text::Stage;
use l4_types::formats::Format;

/// Which lines may stand there, the format of words, and the number of processors.
#[derive(Clone, Copy)]
pub(crate) struct Context {
    pub(crate) lines: Lines,
    pub(crate) format: Format,
    pub(crate) cpus: u8,
}

fn lines_in(begun: bool) -> Lines
    ensures { result ≡ lines_in begun }
{
    if begun { Lines::Script } else { Lines::Thread }
}

impl Context {
    /// What this stage says about the next line. `lost` tells that the line may belong to a script
    /// whose `thread` line was faulty.
    pub(crate) fn at(stage: &Stage, lost: bool) -> Context
        ensures { context_of result ≡ context_at (stage_of stage.now) lost }
    {
        match stage {
            Stage::Start => Context {
                lines: Lines::Format,
                format: Format::W64,
                cpus: 0,
            },
            Stage::Processors(heading) => Context {
                lines: Lines::Processors,
                format: heading.format(),
                cpus: 0,
            },
            Stage::Threads(reading) => Context {
                lines: lines_in(lost || !reading.machine().threads().is_empty()),
                format: reading.format(),
                cpus: reading.machine().cpus(),
            },
        }
    }
}
