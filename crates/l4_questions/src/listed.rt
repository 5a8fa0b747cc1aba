//! The entries of an ending, as a search lists them.
ghost use Rattle.std.specs.Prelude.{◌≡◌, IfOk, map};
ghost use Rattle.l4_replay.specs.Entries.{entry_from};
ghost use Rattle.l4_model.specs.Machine.{Machine as ModelMachine};
ghost use Rattle.l4_questions.specs.Endings.{Ending};
ghost use Rattle.l4_questions.specs.Inner.Found.{led_ending, placed_by, IsLed, IsReplayed};
ghost use Rattle.l4_questions.specs.Placed.{list_head};

use crate::found::FoundEnding;
use l4_all_endings::trace_of;
use l4_history::history::History;
use l4_machine::replay_compact;
use l4_outlooks::know_times;
use l4_replay::Entry;
use l4_schedules::writing::write_schedule;
use l4_script::machine::Machine;
use l4_types::errors::NoMemory;
use std::alloc::Global;

/// The entries of an ending, as a search lists them.
pub(crate) trait Listed {
    /// The ending that they lead to.
    ghost ending: { ModelMachine → Self → Ending };

    /// Whether they lead to one.
    ghost leads: { ModelMachine → Self → Type 0 };

    /// The ending that they lead to.
    ///
    /// `NoMemory`: memory was refused.
    fn ending<'m>(&self, alloc: Global, machine: &'m Machine) -> Result<FoundEnding<'m>, NoMemory>
        requires { leads machine.now self.now }
        ensures { IfOk result (λ found. found ≡ ending machine.now self.now) };
}

// Entries of a search of all worlds. Each is a step but a tick.
impl Listed for Vec<u32> {
    ghost ending = { led_ending };

    ghost leads = { IsLed };

    fn ending<'m>(&self, alloc: Global, machine: &'m Machine) -> Result<FoundEnding<'m>, NoMemory> {
        know_times(machine);
        let trace = trace_of(alloc, machine, self)?;
        let mut head = String::new(alloc);
        write!(head, " steps {}", self.len())?;
        let found = FoundEnding::new(alloc, machine, trace, head.into_bytes())?;
        Ok(found)
    }
}

// Entries of a schedule.
impl Listed for Vec<Entry> {
    ghost ending = { placed_by };

    ghost leads = { IsReplayed };

    fn ending<'m>(&self, alloc: Global, machine: &'m Machine) -> Result<FoundEnding<'m>, NoMemory> {
        let Ok(outcome) = replay_compact(alloc, machine, self) else {
            return Err(NoMemory);
        };
        let trace = outcome.history.into_history(alloc)?;
        let head = list_head(alloc, self)?;
        FoundEnding::new(alloc, machine, trace, head)
    }
}

// The list of a schedule, behind a space. Nothing where it is empty.
fn list_head(alloc: Global, entries: &[Entry]) -> Result<Vec<u8>, NoMemory>
    ensures { IfOk result (λ head. head.items ≡ list_head (map entry_from entries.now)) }
{
    let mut head = Vec::new(alloc);
    if !entries.is_empty() {
        head.push(b' ')?;
        write_schedule(entries, &mut head)?;
    }
    Ok(head)
}
