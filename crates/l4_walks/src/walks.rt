//! Walks, one after the other.
ghost use Rattle.std.specs.Prelude.{◌≡◌, ◌≤◌, IfOk};
ghost use Rattle.l4_explore.specs.Tries.{deepest};
ghost use Rattle.l4_walks.specs.Inner.Walked.{IsChoice, IsWalk};

use l4_outlooks::{Alone, Outlook, know_times};
use l4_script::machine::Machine;
use l4_types::errors::NoMemory;
use rand_core::utils::NextWord;
use rand_pcg::Pcg32;
use std::alloc::Global;
use std::marker::Model;

// The seed and the stream of the demonstration program of PCG.
pub(crate) const SEED: u64 = 42;

pub(crate) const STREAM: u64 = 54;

/// Walks through the worlds of a machine.
#[derive(Drop)]
pub struct Walks<'m> {
    machine: &'m Machine,
    alone: Alone,
    generator: Pcg32,
}

impl<'m> Model for Walks<'m> {
    ghost use Rattle.std.specs.Prelude.{◌≡◌};
    ghost use Rattle.l4_model.specs.Machine.{Machine as MachineOfModel};
    ghost use Rattle.l4_outlooks.specs.Inner.Standing.{left_alone};

    ghost Value = { MachineOfModel };

    ghost view = { λ w. w.machine.now };

    ghost invariant = { λ w. w.alone ≡ left_alone w.machine.now };
}

impl<'m> Walks<'m> {
    /// The walks of a machine.
    ///
    /// `NoMemory`: memory was refused.
    pub fn new(alloc: Global, machine: &'m Machine) -> Result<Walks<'m>, NoMemory>
        ensures { IfOk result (λ walks. walks ≡ machine.now) }
    {
        let alone = Alone::new(alloc, machine)?;
        Ok(Walks {
            machine,
            alone,
            generator: Pcg32::new(SEED, STREAM),
        })
    }

    /// The entries of one walk more, from the opening to an ending. None where it would take more
    /// than `most` steps but ticks.
    ///
    /// `NoMemory`: memory was refused.
    pub fn next_walk(&mut self, alloc: Global, most: u32) -> Result<Option<Vec<u32>>, NoMemory>
        requires short { most ≤ deepest }
        ensures walked { IfOk result (IsWalk self.old most) }
        ensures same { self.new ≡ self.old }
    {
        know_times(self.machine);
        let mut outlook = Outlook::new(alloc, self.machine)?;
        let mut entries = Vec::new(alloc);
        for _ in 0..most {
            let Some(entry) = self.choice(alloc, &outlook)? else {
                return Ok(Some(entries));
            };
            outlook.take(entry)?;
            entries.push(entry)?;
        }
        if outlook.is_end() {
            return Ok(Some(entries));
        }
        Ok(None)
    }

    // An entry by which a search would go on from here. None in an ending.
    fn choice(&mut self, alloc: Global, outlook: &Outlook<'_>) -> Result<Option<u32>, NoMemory>
        requires { outlook.now.machine ≡ self.old }
        ensures choice { IfOk result (IsChoice outlook.now.machine outlook.now.world) }
        ensures same { self.new ≡ self.old }
    {
        let choices = outlook.choices(alloc, &self.alone)?;
        if choices.is_empty() {
            return Ok(None);
        }
        let place = self.generator.next_word() as usize % choices.len();
        Ok(Some(choices[place]))
    }
}
