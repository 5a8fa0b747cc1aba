//! What a search remembers of a machine.
ghost use Rattle.std.specs.Prelude.{◌≡◌, ◌<◌, ◌+◌, ◌*◌, [], true, IfOk, IsSome, OnOk, Some};
ghost use Rattle.std.specs.Prelude.{◌/◌, length, map};
ghost use Rattle.l4_explore.specs.Tries.{deepest, LeadOn};
ghost use Rattle.l4_explore.specs.Inner.Views.{next_from, state_from};
ghost use Rattle.l4_states.specs.Choices.{choice_count, state_after};
ghost use Rattle.l4_endings.specs.Inner.Learned.{IsIdle};
ghost use Rattle.l4_endings.specs.Inner.Tried.{AreOffered, AreUpTo, is_of};
ghost use Rattle.l4_parts.specs.Inner.Known.{AreKnown, IsRowBehind};
ghost use Rattle.l4_parts.specs.Inner.Numbers.{AreLonger};
ghost use Rattle.l4_parts.specs.Inner.Rows.{AreNumbers};

use crate::learning::{event_of, go_on, row_behind};
use crate::sets::persistent_set;
use crate::states::row_of;
use crate::walks::walk_to;
use l4_explore::tries::{Choice, Reached};
use l4_parts::events::Events;
use l4_parts::parts::{Part, Parts};
use l4_parts::rows::{pair_place, part, state_of};
use l4_rounds::choices::choice_count;
use l4_script::machine::Machine;
use l4_sets::{Aims, Processors};
use l4_types::errors::NoMemory;
use std::alloc::{AllocError, Global};
use std::marker::Model;

/// The parts of states of a machine, and what choices do to them, as far as they were met.
#[derive(Drop)]
pub(crate) struct Memory<'m> {
    aims: Aims<'m>,
    parts: Parts,
    events: Events,
    // The row of the state at the beginning.
    opening: Vec<u32>,
}

impl<'m> Model for Memory<'m> {
    ghost use Rattle.l4_model.specs.Machine.{Machine as ModelMachine};
    ghost use Rattle.l4_endings.specs.Inner.Remembered.{IsMemory};

    ghost Value = { ModelMachine };

    ghost view = { λ m. m.aims };

    ghost invariant = { λ m. IsMemory m.aims m.parts.parts.items m.events.events.items
        m.opening.items };
}

impl<'m> Memory<'m> {
    /// The beginning of a machine alone.
    ///
    /// `NoMemory`: memory was refused.
    pub(crate) fn new(alloc: Global, machine: &'m Machine) -> Result<Memory<'m>, NoMemory>
        ensures { IfOk result (λ memory. memory ≡ machine.now) }
    {
        machine.facts();
        let aims = Aims::new(alloc, machine)?;
        let walk = walk_to(alloc, &aims, &[])?;
        let mut parts = Parts::new(alloc)?;
        let opening = row_of(alloc, &aims, &mut parts, &walk, machine.cpus())?;
        Ok(Memory {
            aims,
            parts,
            events: Events::new(alloc),
            opening,
        })
    }

    /// The state at the beginning.
    ///
    /// `AllocError`: memory was refused.
    pub(crate) fn opening(&self, alloc: Global) -> Result<Reached, AllocError>
        ensures { IfOk result (λ r. state_after self.now [] ≡ Some (state_from r)) }
    {
        state_of(alloc, &self.parts.parts, &self.opening, self.aims.cpus())
    }

    /// The choices of a persistent set behind a schedule: all that can be made by its processors.
    /// Some can, if any choice can be made.
    ///
    /// `NoMemory`: memory was refused.
    pub(crate) fn choices(
        &mut self,
        alloc: Global,
        schedule: &[u32],
    ) -> Result<Vec<Choice>, NoMemory>
        requires leads { IsSome (state_after self.old schedule.now) }
        requires short { length schedule.now < deepest }
        ensures leads { IfOk result (λ cs.
            LeadOn (state_after self.old) schedule.now 0 (map next_from cs.items)) }
        ensures offered { IfOk result (λ cs.
            AreOffered self.old schedule.now (map next_from cs.items)) }
        ensures same { self.new ≡ self.old }
    {
        let row = row_behind(
            alloc,
            &self.aims,
            &mut self.parts,
            &mut self.events,
            &self.opening,
            schedule,
        )?;
        choices_behind(
            alloc,
            &self.aims,
            &mut self.parts,
            &mut self.events,
            schedule,
            &row,
        )
    }
}

// The choices of a persistent set behind a schedule, whose state has this row. Where the set has
// none, those of all processors are tried.
fn choices_behind(
    alloc: Global,
    aims: &Aims<'_>,
    parts: &mut Parts,
    events: &mut Events,
    schedule: &[u32],
    row: &[u32],
) -> Result<Vec<Choice>, NoMemory>
    requires known { AreKnown aims.now parts.old.parts.items events.old.events.items }
    requires row { IsRowBehind aims.now schedule.now parts.old.parts.items row.now }
    requires short { length schedule.now < deepest }
    ensures longer { AreLonger parts.old.parts.items parts.new.parts.items }
    ensures known { AreKnown aims.now parts.new.parts.items events.new.events.items }
    ensures leads { IfOk result (λ cs.
        LeadOn (state_after aims.now) schedule.now 0 (map next_from cs.items)) }
    ensures offered { IfOk result (λ cs.
        AreOffered aims.now schedule.now (map next_from cs.items)) }
{
    let set = persistent_set(alloc, &parts.parts, row, aims.cpus())?;
    let choices = choices_of(alloc, aims, parts, events, schedule, row, set)?;
    if !choices.is_empty() {
        return Ok(choices);
    }
    let everybody = Processors::from(0);
    let choices = choices_of(alloc, aims, parts, events, schedule, row, everybody)?;
    Ok(choices)
}

// All choices of the processors of a set that can be made behind a schedule, whose state has this
// row.
fn choices_of(
    alloc: Global,
    aims: &Aims<'_>,
    parts: &mut Parts,
    events: &mut Events,
    schedule: &[u32],
    row: &[u32],
    set: Processors,
) -> Result<Vec<Choice>, NoMemory>
    requires known { AreKnown aims.now parts.old.parts.items events.old.events.items }
    requires row { IsRowBehind aims.now schedule.now parts.old.parts.items row.now }
    requires short { length schedule.now < deepest }
    ensures longer { AreLonger parts.old.parts.items parts.new.parts.items }
    ensures known { AreKnown aims.now parts.new.parts.items events.new.events.items }
    ensures listed { IfOk result (λ cs.
        AreUpTo (state_after aims.now) (is_of aims.now set) schedule.now 0 (choice_count aims.now)
        (map next_from cs.items)) }
{
    aims.facts();
    let count = choice_count(aims.cpus());
    let mut choices = Vec::new(alloc);
    for number in 0..count {
        list_choice(
            alloc,
            aims,
            parts,
            events,
            schedule,
            row,
            set,
            number,
            &mut choices,
        )?;
    }
    Ok(choices)
}

// The processor of a choice.
fn cpu_of(cpus: u8, number: u32) -> u8
    requires most { cpus < 17 }
    requires number { number < cpus * (cpus + 2) }
    ensures value { result ≡ number / (cpus + 2) }
    ensures fits { result < cpus }
{
    (number / (u32::from(cpus) + 2)) as u8
}

// Appends a choice where it is one of the processors of a set, and can be made.
fn list_choice(
    alloc: Global,
    aims: &Aims<'_>,
    parts: &mut Parts,
    events: &mut Events,
    schedule: &[u32],
    row: &[u32],
    set: Processors,
    number: u32,
    choices: &mut Vec<Choice>,
) -> Result<(), NoMemory>
    requires known { AreKnown aims.now parts.old.parts.items events.old.events.items }
    requires row { IsRowBehind aims.now schedule.now parts.old.parts.items row.now }
    requires short { length schedule.now < deepest }
    requires number { number < aims.now.cpus * (aims.now.cpus + 2) }
    ensures longer { AreLonger parts.old.parts.items parts.new.parts.items }
    ensures known { AreKnown aims.now parts.new.parts.items events.new.events.items }
    ensures listed { OnOk result (
        AreUpTo (state_after aims.now) (is_of aims.now set) schedule.now 0 number
        (map next_from choices.old.items) →
        AreUpTo (state_after aims.now) (is_of aims.now set) schedule.now 0 (number + 1)
        (map next_from choices.new.items)) }
{
    let cpus = aims.cpus();
    if !set.has(cpu_of(cpus, number)) {
        return Ok(());
    }
    if is_idle(&parts.parts, row, cpus, number) {
        return Ok(());
    }
    let event = event_of(alloc, aims, parts, events, schedule, row, number)?;
    let mut next = Vec::with_capacity(alloc, row.len())?;
    next.extend_from_slice(row)?;
    if !go_on(events, event, &mut next) {
        return Ok(());
    }
    choices.push(Choice {
        entry: number,
        reached: state_of(alloc, &parts.parts, &next, cpus)?,
    })?;
    Ok(())
}

// Whether a choice can't be made, as a part says: it takes a letter, and there is none, or it is
// that of a processor that has nothing to do and nothing armed.
fn is_idle(parts: &[Part], row: &[u32], cpus: u8, number: u32) -> bool
    requires most { cpus < 17 }
    requires number { number < cpus * (cpus + 2) }
    requires numbers { AreNumbers parts.now row.now cpus }
    ensures { result ≡ true → IsIdle parts.now row.now cpus number }
{
    let width = u32::from(cpus) + 2;
    let cpu = (number / width) as u8;
    let poster = (number % width) as u8;
    if poster < cpus {
        part(parts, row, pair_place(cpus, poster, cpu)).rests
    } else {
        part(parts, row, cpu as usize).rests
    }
}
