//! The choices of a machine, as a search tries them.
ghost use Rattle.std.specs.Prelude.{◌≡◌};
ghost use Rattle.l4_core_model.specs.Runs.{IsMachine};
ghost use Rattle.l4_states.specs.Choices.{state_after};
ghost use Rattle.l4_persistent.specs.Inner.Ends.{AreOfSet};
ghost use Rattle.l4_endings.specs.Inner.Tried.{schedules};

use crate::memory::Memory;
use l4_explore::found::Found;
use l4_explore::tries::{Choice, Reached, Tries};
use l4_script::machine::Machine;
use std::alloc::{AllocError, Global};

/// The choices of a machine. In each state a search tries those of a persistent set.
#[derive(Drop)]
pub(crate) struct Choices<'m> {
    pub(crate) machine: &'m Machine,
    pub(crate) memory: Memory<'m>,
    ghost lawful: { IsMachine machine.now },
    ghost same: { memory ≡ machine.now },
}

impl<'m> Tries for Choices<'m> {
    ghost state_of = { λ c. state_after c.machine.now };

    ghost offers = { λ c. AreOfSet c.machine.now };

    ghost coded = { λ c. (schedules c.machine.now c.lawful).coded };

    fn opening(&self, alloc: Global) -> Result<Reached, AllocError> {
        self.memory.opening(alloc)
    }

    fn choices(
        &mut self,
        alloc: Global,
        found: &Found,
        place: usize,
    ) -> Result<Vec<Choice>, AllocError> {
        let schedule = found.schedule(alloc, place)?;
        let Ok(choices) = self.memory.choices(alloc, &schedule) else {
            return Err(AllocError);
        };
        Ok(choices)
    }
}
