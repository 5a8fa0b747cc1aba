//! The processors of a machine, before they begin.
ghost use Rattle.std.specs.Prelude.{◌≡◌, ◌<◌, ◌≤◌, IfOk};
ghost use Rattle.l4_mail.specs.Inner.Fabrics.{most_room};
ghost use Rattle.l4_proc.specs.Inner.Assembled.{AreAssembled};

use crate::processor::Processor;
use l4_core::processor::Core;
use l4_mail::fabric::fabric;
use l4_script::machine::Machine;
use l4_types::errors::NoMemory;
use std::alloc::Global;

/// The processors of a machine where nothing has happened, in the order of their numbers, with the
/// ports of one fabric. Between any two of them there is room for `room` letters each way, 1 to
/// 65,536.
pub fn assemble<'m>(
    alloc: Global,
    machine: &'m Machine,
    room: usize,
) -> Result<Vec<Processor<'m>>, NoMemory>
    requires { (0 < room) × (room ≤ most_room) }
    ensures { IfOk result (λ processors. AreAssembled room machine.now processors.items) }
{
    let cpus = machine.cpus();
    let ports = fabric(alloc, cpus, room)?;
    let mut processors = Vec::with_capacity(alloc, usize::from(cpus))?;
    for port in ports {
        let core = Core::new(alloc, machine, port.cpu())?;
        processors.push(Processor::new(alloc, core, port))?;
    }
    Ok(processors)
}
