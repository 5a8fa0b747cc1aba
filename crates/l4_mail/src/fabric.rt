//! Making a fabric.
ghost use Rattle.std.specs.Prelude.{◌≡◌, ◌<◌, ◌≤◌, ◌+◌, [], ◌∷◌, ◌++◌, IfOk, OnOk, Some, vec_len};
ghost use Rattle.l4_model.specs.Machine.{most_processors};
ghost use Rattle.l4_mail.specs.Ends.{RingId};
ghost use Rattle.l4_mail.specs.Inner.Fabrics.{most_room, AreFresh, GainsOutlet, GainsInlet};
ghost use Rattle.l4_mail.specs.Inner.Fabrics.{AreMembers};

use crate::bells::Bell;
use crate::ports::Port;
use crate::ways;
use l4_types::errors::NoMemory;
use std::alloc::{AllocError, Global};

/// The ports of a new fabric of 1 to 16 processors, in the order of their numbers. Between any two
/// of them goes a ring each way, with room for `room` letters, 1 to 65,536.
pub fn fabric(alloc: Global, cpus: u8, room: usize) -> Result<Vec<Port>, NoMemory>
    requires cpus { (0 < cpus) × (cpus ≤ most_processors) }
    requires room { (0 < room) × (room ≤ most_room) }
    ensures { IfOk result (λ ports. AreFresh room cpus ports.items) }
{
    let mut ports = Vec::new(alloc);
    for cpu in 0..cpus {
        let next = join(alloc, &mut ports, cpu, room)?;
        ports.push(next)?;
    }
    Ok(ports)
}

// The port of the next processor, with rings to those that are there and back.
fn join(alloc: Global, ports: &mut [Port], cpu: u8, room: usize) -> Result<Port, AllocError>
    requires few { cpu < most_processors }
    requires room { 0 < room }
    requires members { AreMembers room cpu ports.old }
    ensures { IfOk result (λ next. AreMembers room (cpu + 1) (ports.new ++ next ∷ [])) }
{
    let mut next = Port {
        cpu,
        linked: false,
        ready: false,
        quiet: false,
        outlets: Vec::new(alloc),
        inlets: Vec::new(alloc),
        bell: Bell::new(alloc)?,
        heard: 0,
    };
    for port in ports.iter_mut() {
        lay(alloc, room, port, &mut next)?;
        lay(alloc, room, &mut next, port)?;
    }
    next.ready = false;
    next.quiet = false;
    next.outlets.push(None)?;
    next.inlets.push(None)?;
    Ok(next)
}

// Lays a ring from the one to the other.
fn lay(alloc: Global, room: usize, from: &mut Port, to: &mut Port) -> Result<(), AllocError>
    requires room { 0 < room }
    requires few { (vec_len from.old.outlets < most_processors) ×
        (vec_len to.old.inlets < most_processors) }
    ensures { OnOk result ((ring : RingId) × (ring.capacity ≡ room) ×
        GainsOutlet from.old from.new (Some ring) × GainsInlet to.old to.new (Some ring)) }
{
    let (outlet, inlet) = ways::open(alloc, room, to.bell.rope()?)?;
    from.linked = true;
    to.linked = true;
    from.ready = false;
    to.quiet = false;
    from.outlets.push(Some(outlet))?;
    to.inlets.push(Some(inlet))?;
    Ok(())
}
