//! The worlds of a machine, as a search tries them.
ghost use Rattle.std.specs.Prelude.{◌≡◌, ◌+◌, ◌^◌, ◌<◌, IfOk, IsSome, Some, length, map};
ghost use Rattle.l4_explore.specs.Inner.Views.{next_from, state_from};
ghost use Rattle.l4_explore.specs.Tries.{AreCoded};
ghost use Rattle.l4_futures.specs.Choices.{after_entry, world_after};
ghost use Rattle.l4_futures.specs.Inner.Search.{state_after, state_in, AreTried};
ghost use Rattle.l4_outlooks.specs.Inner.Foreseen.{IsLed};
ghost use Rattle.l4_outlooks.specs.Inner.Standing.{left_alone};
ghost use Rattle.l4_all_endings.specs.Tried.{next_at, nexts_at, AreChoicesAfter, AreOpen};

use crate::way::Way;
use l4_explore::found::Found;
use l4_explore::tries::{Choice, Reached, Tries};
use l4_outlooks::{Alone, Outlook, know_times};
use l4_script::machine::Machine;
use l4_types::errors::NoMemory;
use std::alloc::{AllocError, Global};

/// The worlds of a machine, and which steps of its threads are tried alone.
#[derive(Drop)]
pub(crate) struct Worlds<'m> {
    machine: &'m Machine,
    alone: Alone,
    way: Way<'m>,
    ghost coded: { AreCoded (state_after machine.now) },
    ghost known: { alone ≡ left_alone machine.now },
    ghost same: { way ≡ machine.now },
}

impl<'m> Worlds<'m> {
    /// The worlds of a machine.
    pub(crate) fn new(alloc: Global, machine: &'m Machine) -> Result<Worlds<'m>, NoMemory>
        ensures { IfOk result (λ worlds. worlds.machine.now ≡ machine.now) }
    {
        know_times(machine);
        let alone = Alone::new(alloc, machine)?;
        let way = Way::new(alloc, machine)?;
        Ok(Worlds {
            machine,
            alone,
            way,
        })
    }

    // The choices of the world that these entries lead to.
    fn choices_after(&mut self, alloc: Global, entries: &[u32]) -> Result<Vec<Choice>, NoMemory>
        requires leads { IsSome (world_after self.old.machine.now entries.now) }
        requires few { length entries.now + 1 < 2 ^ 20 }
        ensures are { IfOk result (λ choices.
            AreChoicesAfter self.old.machine.now entries.now (map next_from choices.items)) }
        ensures same { self.new.machine ≡ self.old.machine }
    {
        let outlook = self.way.outlook(alloc, entries)?;
        let tried = outlook.choices(alloc, &self.alone)?;
        let choices = choices_by(alloc, outlook, &tried)?;
        Ok(choices)
    }
}

impl<'m> Tries for Worlds<'m> {
    ghost state_of = { λ w. state_after w.machine.now };

    ghost offers = { λ w. AreTried w.machine.now };

    ghost coded = { λ w. w.coded };

    fn opening(&self, alloc: Global) -> Result<Reached, AllocError> {
        let Ok(outlook) = Outlook::new(alloc, self.machine) else {
            return Err(AllocError);
        };
        reached_state(alloc, &outlook)
    }

    fn choices(
        &mut self,
        alloc: Global,
        found: &Found,
        place: usize,
    ) -> Result<Vec<Choice>, AllocError> {
        let entries = found.schedule(alloc, place)?;
        let Ok(choices) = self.choices_after(alloc, &entries) else {
            return Err(AllocError);
        };
        Ok(choices)
    }
}

/// The state of a world.
pub fn reached_state(alloc: Global, outlook: &Outlook<'_>) -> Result<Reached, AllocError>
    ensures { IfOk result (λ reached.
        state_from reached ≡ state_in outlook.now.machine outlook.now.world) }
{
    Ok(Reached {
        code: outlook.code(alloc)?,
        is_end: outlook.is_end(),
    })
}

/// The state that one more entry leads to.
pub fn choice_by(alloc: Global, outlook: Outlook<'_>, entry: u32) -> Result<Choice, NoMemory>
    requires possible { IsSome (after_entry outlook.machine outlook.world entry) }
    requires room { outlook.taken + 1 < 2 ^ 20 }
    ensures { IfOk result (λ choice.
        next_at outlook.entry.machine outlook.entry.world entry ≡ Some (next_from choice)) }
{
    let mut behind = outlook;
    behind.take(entry)?;
    let reached = reached_state(alloc, &behind)?;
    Ok(Choice { entry, reached })
}

// The states that each of these entries leads to from a world.
fn choices_by(alloc: Global, outlook: Outlook<'_>, tried: &[u32]) -> Result<Vec<Choice>, NoMemory>
    requires possible { AreOpen outlook.machine outlook.world tried.now }
    requires room { outlook.taken + 1 < 2 ^ 20 }
    ensures { IfOk result (λ choices. map next_from choices.items
        ≡ nexts_at outlook.entry.machine outlook.entry.world tried.now) }
{
    let mut choices = Vec::new(alloc);
    let Some((last, others)) = tried.split_last() else {
        return Ok(choices);
    };
    for entry in others {
        let copy = outlook.try_clone(alloc)?;
        choices.push(choice_by(alloc, copy, *entry)?)?;
    }
    choices.push(choice_by(alloc, outlook, *last)?)?;
    Ok(choices)
}
