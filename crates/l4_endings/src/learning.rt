//! What choices do, found out once for the parts that they read.
ghost use Rattle.std.specs.Prelude.{◌≡◌, ◌<◌, ◌+◌, ◌*◌, ◌/◌, ◌%◌, ◌==◌, ◌++◌, ◌∷◌, [], true, IfOk};
ghost use Rattle.std.specs.Prelude.{OnOk};
ghost use Rattle.std.specs.Prelude.{Some, length, slice_get};
ghost use Rattle.l4_model.specs.Machine.{Machine};
ghost use Rattle.l4_core_model.specs.Runs.{opening_system, IsMachine};
ghost use Rattle.l4_explore.specs.Tries.{deepest};
ghost use Rattle.l4_states.specs.Inner.Remembered.{pair_place};
ghost use Rattle.l4_endings.specs.Inner.Learned.{IsEventAt, IsEventFrom, IsGone, IsFound, Reads};
ghost use Rattle.l4_endings.specs.Inner.Walked.{AreChoices, IsWalked};
ghost use Rattle.l4_replay.specs.UnderWay.{HasRun};
ghost use Rattle.l4_parts.specs.declared.parts.Part.{Part};
ghost use Rattle.l4_parts.specs.declared.events.Event.{Event as EventOfParts};
ghost use Rattle.std.specs.Prelude.{ℕ, List};
ghost use Rattle.std.specs.Option.{option_map};
ghost use Rattle.l4_parts.specs.Inner.Known.{number_at, AreKnown, Fit, IsRow, IsRowBehind};
ghost use Rattle.l4_parts.specs.Inner.Numbers.{AreLonger};

use crate::states::row_of;
use crate::walks::{make, walk_to};
use l4_parts::events::{Event, Events, apply, writes_of};
use l4_parts::parts::Parts;
use l4_parts::rows::pair_place;
use l4_replay::Walk;
use l4_rounds::choices::is_possible;
use l4_sets::Aims;
use l4_types::errors::NoMemory;
use std::alloc::{AllocError, Global};

// The numbers of the parts that a choice reads: what its processor knows, and the letters that it
// takes one of, or the first again.
fn parts_read(row: &[u32], cpus: u8, number: u32) -> (u32, u32)
    requires most { cpus < 17 }
    requires number { number < cpus * (cpus + 2) }
    requires long { length row.now ≡ cpus + cpus * cpus }
    ensures { Reads row.now cpus number result }
{
    let width = u32::from(cpus) + 2;
    let cpu = (number / width) as u8;
    let poster = (number % width) as u8;
    let part = row[cpu as usize];
    if poster < cpus {
        (part, row[pair_place(cpus, poster, cpu)])
    } else {
        (part, part)
    }
}

// Whether a choice is the turn of a processor. The choice behind it is the tick of that processor.
fn is_turn(cpus: u8, number: u32) -> bool
    requires most { cpus < 17 }
    requires number { number < cpus * (cpus + 2) }
    ensures value { result ≡ (number % (cpus + 2) == cpus) }
    ensures more { result ≡ true → number + 1 < cpus * (cpus + 2) }
{
    number % (u32::from(cpus) + 2) == u32::from(cpus)
}

// Behind a turn: remembers that the tick of its processor can't be made where a walk has come to,
// in the state of this row. If it can be made, or that is known, nothing is remembered.
fn rule_out_tick(
    alloc: Global,
    events: &mut Events,
    walk: &Walk<'_>,
    row: &[u32],
    cpus: u8,
    number: u32,
) -> Result<(), NoMemory>
    requires run { HasRun walk.now }
    requires cpus { cpus ≡ walk.now.machine.cpus }
    requires most { cpus < 17 }
    requires long { length row.now ≡ cpus + cpus * cpus }
    requires number { number < cpus * (cpus + 2) }
    ensures { (m : Machine) (s : List ℕ) (parts : List Part) → IsMachine m →
        IsWalked m s walk.now → IsRowBehind m s parts row.now → length s < deepest →
        AreKnown m parts events.old.events.items → AreKnown m parts events.new.events.items }
{
    if !is_turn(cpus, number) {
        return Ok(());
    }
    let tick = number + 1;
    if is_possible(walk, cpus, tick) {
        return Ok(());
    }
    let read = parts_read(row, cpus, tick);
    if events.find(row, tick, read.0, read.1).is_some() {
        return Ok(());
    }
    let event = event_from(alloc, tick, read, row, None)?;
    events.add(event)?;
    Ok(())
}

// The row of the state behind one more choice. None if it can't be made. Behind a turn the tick of
// its processor is ruled out too, if that can't be made either, which saves a replay.
fn row_after(
    alloc: Global,
    aims: &Aims<'_>,
    parts: &mut Parts,
    events: &mut Events,
    schedule: &[u32],
    row: &[u32],
    number: u32,
) -> Result<Option<Vec<u32>>, NoMemory>
    requires known { AreKnown aims.now parts.old.parts.items events.old.events.items }
    requires row { IsRowBehind aims.now schedule.now parts.old.parts.items row.now }
    requires short { length schedule.now < deepest }
    requires number { number < aims.now.cpus * (aims.now.cpus + 2) }
    ensures longer { AreLonger parts.old.parts.items parts.new.parts.items }
    ensures known { AreKnown aims.now parts.new.parts.items events.new.events.items }
    ensures found { IfOk result
        (IsFound aims.now schedule.now number parts.new.parts.items) }
{
    let cpus = aims.cpus();
    let mut walk = walk_to(alloc, aims, schedule)?;
    rule_out_tick(alloc, events, &walk, row, cpus, number)?;
    if !is_possible(&walk, cpus, number) {
        return Ok(None);
    }
    make(&mut walk, cpus, number)?;
    Ok(Some(row_of(alloc, aims, parts, &walk, cpus)?))
}

// What a choice does that leads from one row to another one, or to none.
fn event_from(
    alloc: Global,
    number: u32,
    read: (u32, u32),
    old: &[u32],
    new: Option<Vec<u32>>,
) -> Result<Event, AllocError>
    requires long { (row : List ℕ) → option_map (λ v. v.items) new ≡ Some row →
        length row ≡ length old.now }
    requires few { length old.now < 1000 }
    ensures { IfOk result (IsEventFrom number read old.now new) }
{
    let (part, queue) = read;
    let Some(new) = new else {
        return Ok(Event {
            choice: number,
            part,
            queue,
            is_possible: false,
            writes: Vec::new(alloc),
        });
    };
    Ok(Event {
        choice: number,
        part,
        queue,
        is_possible: true,
        writes: writes_of(alloc, old, &new)?,
    })
}

// Finds out what a choice does behind a schedule, whose state has this row, and remembers it.
fn learn(
    alloc: Global,
    aims: &Aims<'_>,
    parts: &mut Parts,
    events: &mut Events,
    schedule: &[u32],
    row: &[u32],
    number: u32,
) -> Result<usize, NoMemory>
    requires known { AreKnown aims.now parts.old.parts.items events.old.events.items }
    requires row { IsRowBehind aims.now schedule.now parts.old.parts.items row.now }
    requires short { length schedule.now < deepest }
    requires number { number < aims.now.cpus * (aims.now.cpus + 2) }
    ensures longer { AreLonger parts.old.parts.items parts.new.parts.items }
    ensures known { AreKnown aims.now parts.new.parts.items events.new.events.items }
    ensures event { IfOk result (IsEventAt aims.now events.new.events.items row.now number) }
{
    let read = parts_read(row, aims.cpus(), number);
    let new = row_after(alloc, aims, parts, events, schedule, row, number)?;
    let event = event_from(alloc, number, read, row, new)?;
    Ok(events.add(event)?)
}

/// The number of the event of a choice behind a schedule, whose state has this row. What is not
/// known is found out.
///
/// `NoMemory`: memory was refused.
pub(crate) fn event_of(
    alloc: Global,
    aims: &Aims<'_>,
    parts: &mut Parts,
    events: &mut Events,
    schedule: &[u32],
    row: &[u32],
    number: u32,
) -> Result<usize, NoMemory>
    requires known { AreKnown aims.now parts.old.parts.items events.old.events.items }
    requires row { IsRowBehind aims.now schedule.now parts.old.parts.items row.now }
    requires short { length schedule.now < deepest }
    requires number { number < aims.now.cpus * (aims.now.cpus + 2) }
    ensures longer { AreLonger parts.old.parts.items parts.new.parts.items }
    ensures known { AreKnown aims.now parts.new.parts.items events.new.events.items }
    ensures event { IfOk result (IsEventAt aims.now events.new.events.items row.now number) }
{
    let (part, queue) = parts_read(row, aims.cpus(), number);
    if let Some(event) = events.find(row, number, part, queue) {
        return Ok(event);
    }
    learn(alloc, aims, parts, events, schedule, row, number)
}

/// Whether the choice of an event can be made. The row becomes that of the state behind it.
pub(crate) fn go_on(events: &Events, event: usize, row: &mut Vec<u32>) -> bool
    requires inside { event < length events.now.events.items }
    requires fit { (e : EventOfParts) → slice_get events.now.events.items event ≡ Some e →
        Fit e.writes.items row.old.items }
    ensures { IsGone events.now.events.items event row.old.items row.new.items result }
{
    let event = &events.events[event];
    apply(&event.writes, row);
    event.is_possible
}

/// The row of the state that a schedule leads to.
///
/// `NoMemory`: memory was refused.
pub(crate) fn row_behind(
    alloc: Global,
    aims: &Aims<'_>,
    parts: &mut Parts,
    events: &mut Events,
    opening: &[u32],
    schedule: &[u32],
) -> Result<Vec<u32>, NoMemory>
    requires known { AreKnown aims.now parts.old.parts.items events.old.events.items }
    requires opening { IsRow aims.now (opening_system aims.now) parts.old.parts.items
        opening.now }
    requires leads { AreChoices aims.now schedule.now }
    requires short { length schedule.now < deepest }
    ensures longer { AreLonger parts.old.parts.items parts.new.parts.items }
    ensures known { AreKnown aims.now parts.new.parts.items events.new.events.items }
    ensures row { IfOk result (λ row.
        IsRowBehind aims.now schedule.now parts.new.parts.items row.items) }
{
    aims.facts();
    let mut row = Vec::with_capacity(alloc, opening.len())?;
    row.extend_from_slice(opening)?;
    for place in 0..schedule.len() {
        let event = event_of(
            alloc,
            aims,
            parts,
            events,
            &schedule[..place],
            &row,
            schedule[place],
        )?;
        go_on(events, event, &mut row);
    }
    Ok(row)
}
