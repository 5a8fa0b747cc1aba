//! What is told of the world that an audit has come to.
ghost use Rattle.std.specs.Prelude.{◌≡◌, ◌++◌, flat_map, map, IfOk, OnOk, OnErr};
ghost use Rattle.l4_explain.specs.Worlds.{Ends, explanation, possible_line, possible_text};
ghost use Rattle.l4_explain.specs.Worlds.{world_report};
ghost use Rattle.l4_types.specs.StepView.{step_of};

use crate::reasons::{Cause, write_cause};
use l4_audit::auditor::Auditor;
use l4_reports::report_lines::write_report;
use l4_trace::lines::write_event;
use l4_types::errors::NoMemory;
use l4_types::reports::Ending;
use l4_types::steps::Step;
use std::alloc::Global;

/// Appends a line for each step but ticks that is possible in the world that an audit has come to.
/// The lines stand in the order of `Auditor::possible`. If memory is refused, nothing is appended.
pub fn write_possible(
    alloc: Global,
    auditor: &Auditor<'_>,
    out: &mut Vec<u8>,
) -> Result<(), NoMemory>
    ensures ok { OnOk result (out.new.items ≡ out.old.items ++
        possible_text auditor.now.at.machine auditor.now.at.world) }
    ensures err { OnErr result (out.new.items ≡ out.old.items) }
{
    let steps = auditor.possible(alloc)?;
    let mut lines = Vec::new(alloc);
    push_steps(&mut lines, steps.as_slice())?;
    out.extend_from_slice(lines.as_slice())?;
    Ok(())
}

fn push_steps(lines: &mut Vec<u8>, steps: &[Step]) -> Result<(), NoMemory>
    ensures { OnOk result (lines.new.items ≡
        lines.old.items ++ flat_map possible_line (map step_of steps.now)) }
{
    for step in steps {
        push_step(lines, step)?;
    }
    Ok(())
}

fn push_step(lines: &mut Vec<u8>, step: &Step) -> Result<(), NoMemory>
    ensures { OnOk result (lines.new.items ≡
        lines.old.items ++ possible_line (step_of step.now)) }
{
    lines.extend_from_slice(b"possible ")?;
    write_event(step, lines)
}

/// Appends why a step is refused in the world that an audit has come to, and which steps are
/// possible there. If memory is refused, nothing is appended.
pub fn write_explanation(
    alloc: Global,
    auditor: &Auditor<'_>,
    cause: &Cause,
    out: &mut Vec<u8>,
) -> Result<(), NoMemory>
    ensures ok { OnOk result (out.new.items ≡ out.old.items ++
        explanation auditor.now.at.machine auditor.now.at.world cause.now) }
    ensures err { OnErr result (out.new.items ≡ out.old.items) }
{
    let mut lines = Vec::new(alloc);
    write_cause(cause, &mut lines)?;
    write_possible(alloc, auditor, &mut lines)?;
    out.extend_from_slice(lines.as_slice())?;
    Ok(())
}

/// Appends the report of the world that an audit has come to, and returns its ending. That is
/// `Quiet` if no step but a tick is possible there, now or after any ticks. If memory is refused,
/// nothing is appended.
pub fn write_world(
    alloc: Global,
    auditor: Auditor<'_>,
    out: &mut Vec<u8>,
) -> Result<Ending, NoMemory>
    ensures ending { IfOk result (Ends auditor.entry) }
    ensures ok { IfOk result (λ ending.
        out.new.items ≡ out.old.items ++ world_report auditor.entry ending) }
    ensures err { OnErr result (out.new.items ≡ out.old.items) }
{
    let threads = auditor.threads(alloc)?;
    let waiting = auditor.waiting(alloc)?;
    let ending = auditor.ending()?;
    write_report(threads.as_slice(), waiting.as_slice(), ending, out)?;
    Ok(ending)
}
