//! Walks of placed threads, one after the other.
ghost use Rattle.std.specs.Prelude.{◌≡◌, ◌<◌, ◌≤◌, ◌*◌, ◌+◌, ◌/◌, ◌%◌, ◌^◌, IfOk, OnOk, Some, None};
ghost use Rattle.std.specs.Prelude.{if◌then◌else◌};
ghost use Rattle.l4_explore.specs.Tries.{deepest};
ghost use Rattle.l4_core_model.specs.Runs.{Run, at_rest};
ghost use Rattle.l4_replay.specs.Entries.{after_entry};
ghost use Rattle.l4_replay.specs.UnderWay.{GoesOn, HasRun, IsRun};
ghost use Rattle.l4_model.specs.Machine.{Machine as MachineOfModel};
ghost use Rattle.l4_states.specs.Choices.{choice_of, IsNear};
ghost use Rattle.l4_walks.specs.Inner.Placed.{AreChoices, IsChoice, IsWalk};

use crate::walks::{SEED, STREAM};
use l4_replay::{Entry, Walk};
use l4_rounds::choices::{choice, choice_count, is_possible, least_deadline};
use l4_script::machine::Machine;
use l4_types::errors::NoMemory;
use rand_core::utils::NextWord;
use rand_pcg::Pcg32;
use std::alloc::Global;
use std::marker::Model;

/// Walks through the runs that the processors of a machine make by schedules.
#[derive(Drop)]
pub struct PlacedWalks<'m> {
    machine: &'m Machine,
    generator: Pcg32,
}

impl<'m> Model for PlacedWalks<'m> {
    ghost use Rattle.l4_model.specs.Machine.{Machine as MachineOfModel};

    ghost Value = { MachineOfModel };

    ghost view = { λ w. w.machine.now };
}

impl<'m> PlacedWalks<'m> {
    /// The walks of a machine.
    pub fn new(machine: &'m Machine) -> PlacedWalks<'m>
        ensures { result ≡ machine.now }
    {
        PlacedWalks {
            machine,
            generator: Pcg32::new(SEED, STREAM),
        }
    }

    /// The entries of one walk more, from the opening to a state at rest. None where it would take
    /// more than `most` events. Its ticks go to least deadlines.
    ///
    /// `NoMemory`: memory was refused.
    pub fn next_walk(&mut self, alloc: Global, most: u32) -> Result<Option<Vec<Entry>>, NoMemory>
        requires short { most ≤ deepest }
        ensures walked { IfOk result (IsWalk self.old most) }
        ensures same { self.new ≡ self.old }
    {
        self.machine.facts();
        let cpus = self.machine.cpus();
        let mut walk = Walk::new(alloc, self.machine)?;
        let mut entries = Vec::new(alloc);
        for _ in 0..most {
            let Some(number) = self.choice(alloc, &walk, cpus)? else {
                return Ok(if_at_rest(&walk, entries));
            };
            make(&mut walk, cpus, number)?;
            entries.push(choice(cpus, number))?;
        }
        Ok(if_at_rest(&walk, entries))
    }

    // The number of a choice that can be made. None where none can.
    fn choice(&mut self, alloc: Global, walk: &Walk<'_>, cpus: u8) -> Result<Option<u32>, NoMemory>
        requires run { HasRun walk.now }
        requires cpus { cpus ≡ walk.now.machine.cpus }
        requires few { cpus < 17 }
        ensures choice { (m : MachineOfModel) (r : Run) → IsRun m r walk.now →
            IfOk result (IsChoice m r.system) }
        ensures same { self.new ≡ self.old }
    {
        let choices = choices_of(alloc, walk, cpus)?;
        if choices.is_empty() {
            return Ok(None);
        }
        let place = self.generator.next_word() as usize % choices.len();
        Ok(Some(choices[place]))
    }
}

// All choices that can be made behind a core run.
fn choices_of(alloc: Global, walk: &Walk<'_>, cpus: u8) -> Result<Vec<u32>, NoMemory>
    requires run { HasRun walk.now }
    requires cpus { cpus ≡ walk.now.machine.cpus }
    requires few { cpus < 17 }
    ensures { (m : MachineOfModel) (r : Run) → IsRun m r walk.now →
        IfOk result (λ choices. AreChoices m r.system choices.items) }
{
    let mut choices = Vec::new(alloc);
    for number in 0..choice_count(cpus) {
        if is_possible(walk, cpus, number) {
            choices.push(number)?;
        }
    }
    Ok(choices)
}

// Makes a choice. The least deadline of its processor is not farther ahead than the longest period.
fn make(walk: &mut Walk<'_>, cpus: u8, number: u32) -> Result<(), NoMemory>
    requires run { HasRun walk.old }
    requires few { walk.old.events < 2 ^ 61 }
    requires cpus { cpus ≡ walk.old.machine.cpus }
    requires most { cpus < 17 }
    requires number { number < cpus * (cpus + 2) }
    ensures goes { OnOk result (GoesOn (after_entry
        (choice_of cpus (number / (cpus + 2)) (number % (cpus + 2)))) walk.old walk.new) }
    ensures near { OnOk result ((m : MachineOfModel) (r : Run) → IsRun m r walk.old →
        IsNear r.system (number / (cpus + 2))) }
{
    let _near = least_deadline(walk, (number / (u32::from(cpus) + 2)) as u8);
    walk.take(choice(cpus, number))
}

// The entries of a walk that has come to rest.
fn if_at_rest(walk: &Walk<'_>, entries: Vec<Entry>) -> Option<Vec<Entry>>
    requires { HasRun walk.now }
    ensures { (m : MachineOfModel) (r : Run) → IsRun m r walk.now →
        result ≡ (if at_rest m r.system then Some entries else None) }
{
    if walk.is_at_rest() {
        Some(entries)
    } else {
        None
    }
}
