//! What may happen next in a core run, by numbers.
ghost use Rattle.std.specs.Prelude.{ℕ, ◌≡◌, ◌<◌, ◌*◌, ◌+◌, ◌/◌, ◌%◌, Some, is_some, slice_get};
ghost use Rattle.std.specs.Prelude.{true};
ghost use Rattle.l4_model.specs.Machine.{Machine as MachineOfModel};
ghost use Rattle.l4_core_model.specs.Runs.{Run, System};
ghost use Rattle.l4_core_model.specs.Schedules.{TickOf};
ghost use Rattle.l4_replay.specs.Entries.{entry_from, is_entry_of};
ghost use Rattle.l4_replay.specs.UnderWay.{HasRun, IsRun};
ghost use Rattle.l4_states.specs.Choices.{after_entry, choice, choice_of, IsNear};
ghost use Rattle.l4_rounds.specs.Inner.Choices.{IsTickOf};

use l4_core::processor::Core;
use l4_refines::law_of_core_runs;
use l4_replay::{Entry, Walk};
use l4_types::steps::CLOCKS;

/// The number of choices, at most 288. Each processor has one for the letters of each poster, one
/// for the turn of its core, and one for the tick to its least deadline.
pub fn choice_count(cpus: u8) -> u32
    requires { cpus < 17 }
    ensures { result ≡ cpus * (cpus + 2) }
{
    u32::from(cpus) * (u32::from(cpus) + 2)
}

// The entry of a processor's choice, by its place among the choices of that processor.
fn choice_of(cpus: u8, cpu: u8, k: u8) -> Entry
    requires own { cpu < cpus }
    requires choice { k < cpus + 2 }
    ensures value { entry_from result ≡ choice_of cpus cpu k }
    ensures lawful { is_entry_of cpus (entry_from result) ≡ true }
{
    if k < cpus {
        Entry::Letter { cpu, from: k }
    } else if k == cpus {
        Entry::Core(cpu)
    } else {
        Entry::Tick(cpu)
    }
}

/// The entry of the choice of this number, which is below their count.
pub fn choice(cpus: u8, number: u32) -> Entry
    requires cpus { cpus < 17 }
    requires number { number < cpus * (cpus + 2) }
    ensures value { entry_from result ≡ choice_of cpus (number / (cpus + 2)) (number % (cpus + 2)) }
    ensures lawful { is_entry_of cpus (entry_from result) ≡ true }
{
    let width = u32::from(cpus) + 2;
    choice_of(cpus, (number / width) as u8, (number % width) as u8)
}

/// The least deadline of a processor, which is not farther ahead than the longest period.
pub fn least_deadline(walk: &Walk<'_>, cpu: u8) -> Option<u64>
    requires run { HasRun walk.now }
    requires own { cpu < walk.now.machine.cpus }
    ensures { (m : MachineOfModel) (r : Run) → IsRun m r walk.now → IsNear r.system cpu }
{
    walk.core(cpu).least_deadline()
}

// Whether the clock of a processor may go on to its least deadline.
fn can_tick(core: &Core<'_>) -> bool
    ensures value { (m : MachineOfModel) (g : System) (cpu : ℕ) →
        slice_get g.locals cpu ≡ Some core.now.local →
        result ≡ is_some (after_entry m g (TickOf cpu)) }
    ensures near { (g : System) (cpu : ℕ) → slice_get g.locals cpu ≡ Some core.now.local →
        IsNear g cpu }
{
    match core.least_deadline() {
        Some(deadline) => core.clock() < deadline && deadline < CLOCKS,
        None => false,
    }
}

// Whether a choice of a processor can be made.
fn is_possible_at(walk: &Walk<'_>, cpus: u8, cpu: u8, k: u8) -> bool
    requires run { HasRun walk.now }
    requires cpus { cpus ≡ walk.now.machine.cpus }
    requires own { cpu < cpus }
    requires choice { k < cpus + 2 }
    ensures value { (m : MachineOfModel) (r : Run) → IsRun m r walk.now →
        result ≡ is_some (after_entry m r.system (choice_of cpus cpu k)) }
    ensures near { (m : MachineOfModel) (r : Run) → IsRun m r walk.now → cpus < k →
        IsNear r.system cpu }
{
    law_of_core_runs();
    if k < cpus {
        !walk.letters(cpu, k).is_empty()
    } else if k == cpus {
        walk.core(cpu).busy()
    } else {
        can_tick(walk.core(cpu))
    }
}

/// Whether the choice of this number, below their count, can be made. If it is a tick, the least
/// deadline is not farther ahead than the longest period.
pub fn is_possible(walk: &Walk<'_>, cpus: u8, number: u32) -> bool
    requires run { HasRun walk.now }
    requires cpus { cpus ≡ walk.now.machine.cpus }
    requires few { cpus < 17 }
    requires number { number < cpus * (cpus + 2) }
    ensures value { (m : MachineOfModel) (r : Run) → IsRun m r walk.now →
        result ≡ is_some (after_entry m r.system (choice m number)) }
    ensures near { (m : MachineOfModel) (r : Run) → IsRun m r walk.now →
        IsTickOf cpus number → IsNear r.system (number / (cpus + 2)) }
{
    let width = u32::from(cpus) + 2;
    is_possible_at(walk, cpus, (number / width) as u8, (number % width) as u8)
}
