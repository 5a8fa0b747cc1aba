//! Core runs that choices lead to.
ghost use Rattle.std.specs.Prelude.{◌≡◌, ◌<◌, ◌*◌, ◌+◌, ◌/◌, ◌%◌, ◌^◌, IfOk, OnOk};
ghost use Rattle.std.specs.Prelude.{length};
ghost use Rattle.l4_model.specs.Machine.{Machine as MachineOfModel};
ghost use Rattle.l4_core_model.specs.Runs.{Run};
ghost use Rattle.l4_replay.specs.Entries.{after_entry};
ghost use Rattle.l4_replay.specs.UnderWay.{GoesOn, HasRun, IsRun};
ghost use Rattle.l4_states.specs.Choices.{choice_of, IsNear};
ghost use Rattle.l4_endings.specs.Inner.Walked.{AreChoices, IsWalked};

use l4_replay::Walk;
use l4_rounds::choices::{choice, least_deadline};
use l4_sets::Aims;
use l4_types::errors::NoMemory;
use std::alloc::Global;

/// The core run that choices lead to.
///
/// `NoMemory`: memory was refused.
pub(crate) fn walk_to<'m>(
    alloc: Global,
    aims: &Aims<'m>,
    numbers: &[u32],
) -> Result<Walk<'m>, NoMemory>
    requires few { length numbers.now < 2 ^ 60 }
    requires choices { AreChoices aims.now numbers.now }
    ensures { IfOk result (IsWalked aims.now numbers.now) }
{
    let cpus = aims.cpus();
    let mut walk = Walk::new(alloc, aims.machine())?;
    for number in numbers {
        make(&mut walk, cpus, *number)?;
    }
    Ok(walk)
}

/// Makes a choice. The least deadline of its processor is not farther ahead than the longest period.
///
/// `NoMemory`: memory was refused.
pub(crate) fn make(walk: &mut Walk<'_>, cpus: u8, number: u32) -> Result<(), NoMemory>
    requires run { HasRun walk.old }
    requires few { walk.old.events < 2 ^ 61 }
    requires cpus { cpus ≡ walk.old.machine.cpus }
    requires most { cpus < 17 }
    requires number { number < cpus * (cpus + 2) }
    ensures goes { OnOk result (GoesOn (after_entry
        (choice_of cpus (number / (cpus + 2)) (number % (cpus + 2)))) walk.old walk.new) }
    ensures near { OnOk result ((m : MachineOfModel) (r : Run) → IsRun m r walk.old →
        IsNear r.system (number / (cpus + 2))) }
{
    let _near = least_deadline(walk, (number / (u32::from(cpus) + 2)) as u8);
    walk.take(choice(cpus, number))
}
