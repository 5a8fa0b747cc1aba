//! Writing the trace of a run as its history is told, in lines or in objects.
ghost use Rattle.std.specs.Prelude.{◌≡◌, ◌++◌, ◌&&◌, [], IfOk, true};
ghost use Rattle.std.specs.List.{list_all};
ghost use Rattle.std.proofs.Common.{◌∙◌, ap, ap₂, append-nil, append_assoc, refl, sym};
ghost use Rattle.std.proofs.lemmas.Grind.{flat_map-append};
ghost use Rattle.std.proofs.lemmas.List.Folds.{list_all-append};
ghost use Rattle.l4_model.specs.History.{IsHistory};
ghost use Rattle.l4_machine.specs.Outcomes.{steps_of};
ghost use Rattle.l4_trace.specs.Lines.{has_line, line_of, trace_of};
ghost use Rattle.l4_jobs.specs.Objects.{told_steps};

use l4_history::history::History;
use l4_history::steps::Steps;
use l4_json::scripts::ScriptLines;
use l4_json::steps::push_steps;
use l4_machine::RunHistory;
use l4_replay::Listener;
use l4_script::machine::Machine;
use l4_trace::traces::TraceWriter;
use l4_types::errors::NoMemory;
use std::alloc::Global;

/// The lines of the steps that are told, where these are printed.
#[derive(Drop)]
pub(crate) struct PrintedSteps {
    trace: TraceWriter,
    are_printed: bool,
}

impl Listener for PrintedSteps {
    ghost hears = { λ old steps new. (new.are_printed ≡ old.are_printed) ×
        (old.are_printed ≡ true →
        (new.trace.lines.items ≡ old.trace.lines.items ++ trace_of steps) ×
        (list_all has_line steps ≡ true)) };

    ghost heard_none = { λ old. (refl, λ _. (sym (append-nil old.trace.lines.items), refl)) };

    ghost heard_both = { λ old between new first second one two. (
      two.0 ∙ one.0,
      λ printed. (
        (two.1 (one.0 ∙ printed)).0 ∙ ap (λ lines. lines ++ trace_of second) (one.1 printed).0
            ∙ append_assoc old.trace.lines.items (trace_of first) (trace_of second)
            ∙ ap (λ lines. old.trace.lines.items ++ lines)
            (sym (flat_map-append line_of first second)),
        list_all-append has_line first second
            ∙ ap₂ (λ a b. a && b) (one.1 printed).1 (two.1 (one.0 ∙ printed)).1,
      ),
    ) };

    fn hear(&mut self, steps: Steps<'_>) -> Result<(), NoMemory> {
        if self.are_printed {
            self.trace.write(steps)?;
        }
        Ok(())
    }
}

impl PrintedSteps {
    /// None is told yet. It takes no memory.
    pub(crate) fn new(alloc: Global, are_printed: bool) -> PrintedSteps
        ensures lines { result.trace.lines.items ≡ [] }
        ensures printed { result.are_printed ≡ are_printed }
    {
        PrintedSteps {
            trace: TraceWriter::new(alloc),
            are_printed,
        }
    }

    /// The lines that were written.
    pub(crate) fn into_lines(self) -> Vec<u8>
        ensures { result.items ≡ self.trace.lines.items }
    {
        self.trace.into_lines()
    }
}

/// The line of each step of a history. No step is copied.
pub(crate) fn trace_of(alloc: Global, history: &RunHistory<'_>) -> Result<Vec<u8>, NoMemory>
    ensures lines { IfOk result (λ lines. lines.items ≡ trace_of (steps_of history.now)) }
    ensures spelled { IfOk result (λ _. list_all has_line (steps_of history.now) ≡ true) }
{
    let mut trace = PrintedSteps::new(alloc, true);
    history.tell(alloc, &mut trace)?;
    Ok(trace.into_lines())
}

/// The object of each step of a history of the machine that this text declares.
pub(crate) fn objects_of(
    alloc: Global,
    text: &[u8],
    machine: &Machine,
    history: &RunHistory<'_>,
) -> Result<Vec<u8>, NoMemory>
    requires { IsHistory machine.now (steps_of history.now) }
    ensures lines { IfOk result (λ objects.
        objects.items ≡ told_steps true text.now machine.now (steps_of history.now)) }
    ensures spelled { IfOk result (λ _. list_all has_line (steps_of history.now) ≡ true) }
{
    let scripts = ScriptLines::of(alloc, text)?;
    let mut steps = History::new(alloc);
    history.tell(alloc, &mut steps)?;
    let mut objects = Vec::new(alloc);
    push_steps(alloc, machine, &scripts, &steps, &mut objects)?;
    Ok(objects)
}
