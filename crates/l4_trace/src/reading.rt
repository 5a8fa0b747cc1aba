//! The text of a trace, read line by line.
ghost use Rattle.std.specs.Prelude.{map};
ghost use Rattle.l4_types.specs.StepView.{step_of};
ghost use Rattle.l4_trace.specs.Reading.{Reads, IsReadBack, IsWritten, IsFirstFault, steps_of};

use crate::fault::TraceFault;
use crate::reader::{ReadWords, Reader};
use l4_history::history::History;
use l4_types::steps::Step;
use std::alloc::Global;

/// The steps whose trace a text is.
///
/// `Line`: this line, counted from 1, is the first that spells no step, or has no line end.
/// `NoMemory`: memory was refused, which says nothing of the text.
pub fn read_events(alloc: Global, text: &[u8]) -> Result<Vec<Step>, TraceFault>
    ensures { Reads (λ steps. map step_of steps.items) result (steps_of text.now) }
{
    let history = read_history(alloc, text)?;
    Ok(history.to_steps(alloc)?)
}

/// The history whose trace a text is. Its faults are those of `read_events`.
pub fn read_history(alloc: Global, text: &[u8]) -> Result<History, TraceFault>
    ensures { Reads (λ history. history.steps) result (steps_of text.now) }
{
    let mut history = History::new(alloc);
    let mut reader = Reader::of(text);
    let mut words = ReadWords::new();
    'steps: while let Some(step) = reader.next(&mut words)? {
        history.reserve()?;
        history.push(step);
    }
    Ok(history)
}

/// The trace of steps is read back as these steps, and no other text is read. For any other text,
/// the fault names its first faulty line.
pub fn law_read_back()
    ensures read_back { IsReadBack }
    ensures written { IsWritten }
    ensures first_fault { IsFirstFault }
{}
