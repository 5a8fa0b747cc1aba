//! The history that entries stand for.
ghost use Rattle.std.specs.Prelude.{◌≡◌, ◌+◌, ◌≤◌, IfOk, IsSome, OnOk, length};
ghost use Rattle.l4_model.specs.Machine.{most_processors};
ghost use Rattle.l4_model.specs.History.{run};
ghost use Rattle.l4_types.specs.StepView.{seen};
ghost use Rattle.l4_explore.specs.Tries.{deepest};
ghost use Rattle.l4_worlds.specs.Told.{when_due};
ghost use Rattle.l4_futures.specs.Choices.{world_after};
ghost use Rattle.l4_futures.specs.Traces.{trace_along};
ghost use Rattle.l4_all_endings.specs.Inner.Telling.{Goes, Tells};

use l4_audit::auditor::Auditor;
use l4_history::history::History;
use l4_outlooks::{Outlook, know_times};
use l4_script::machine::Machine;
use l4_types::errors::NoMemory;
use l4_types::step_ref::StepRef;
use std::alloc::Global;

// A history that is told, and the audit of it so far.
#[derive(Drop)]
struct Telling<'m> {
    auditor: Auditor<'m>,
    history: History,
}

impl Telling<'_> {
    // Tells a step that is possible.
    fn tell(&mut self, step: StepRef<'_>) -> Result<(), NoMemory>
        ensures { OnOk result (Tells self.old (seen step.entry) self.new) }
    {
        self.history.reserve()?;
        if self.auditor.step(&step).is_err() {
            return Err(NoMemory);
        }
        self.history.push(step);
        Ok(())
    }

    // Tells a step once it is due: before a timeout that is not due yet the clock of its thread's
    // processor goes on until it is.
    fn tell_when_due(&mut self, step: StepRef<'_>) -> Result<(), NoMemory>
        requires clocks { length self.old.auditor.at.world.clocks ≤ most_processors }
        requires due { IsSome (run self.old.auditor.at.machine self.old.auditor.at.world
            (when_due self.old.auditor.at.machine self.old.auditor.at.world (seen step))) }
        ensures { OnOk result (Goes self.old (seen step.entry) self.new) }
    {
        if let Some(tick) = self.auditor.until_due(&step) {
            self.tell(StepRef::Tick(tick))?;
        }
        self.tell(step)
    }
}

/// The history that entries stand for: the steps that they name, and before a timeout that is not
/// due yet a tick.
///
/// `NoMemory`: memory was refused. Each of the entries is possible where it stands.
pub fn trace_of(alloc: Global, machine: &Machine, entries: &[u32]) -> Result<History, NoMemory>
    requires leads { IsSome (world_after machine.now entries.now) }
    requires few { length entries.now ≤ deepest + 1 }
    ensures { IfOk result (λ history. history.steps ≡ trace_along machine.now entries.now) }
{
    know_times(machine);
    machine.facts();
    let mut outlook = Outlook::new(alloc, machine)?;
    let mut telling = Telling {
        auditor: Auditor::new(alloc, machine)?,
        history: History::new(alloc),
    };
    for entry in entries {
        let Some(step) = outlook.step(*entry) else {
            return Err(NoMemory);
        };
        telling.tell_when_due(StepRef::from(&step))?;
        outlook.take(*entry)?;
    }
    Ok(telling.history)
}
