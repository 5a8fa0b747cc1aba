//! The world of a machine before its first step.
ghost use Rattle.std.specs.Prelude.{◌≡◌, IfOk, map, replicate};
ghost use Rattle.l4_model.specs.World.{opening, opening_thread};

use crate::world::World;
use l4_script::machine::Machine;
use l4_thread::tcb::Tcb;
use l4_types::errors::NoMemory;
use std::alloc::Global;
use tcb_arena::Arena;

impl<'m> World<'m> {
    /// The world of a machine before its first step.
    pub fn new(alloc: Global, machine: &'m Machine) -> Result<World<'m>, NoMemory>
        ensures { IfOk result (λ a. a ≡ record {
          machine = machine.now;
          world = opening machine.now;
        }) }
    {
        Ok(World {
            machine,
            threads: blocks(alloc, machine)?,
            lists: Arena::new(alloc, machine.threads().len())?,
            clocks: clocks(alloc, machine)?,
            owed: Vec::new(alloc),
        })
    }
}

// The blocks of threads that have run nothing.
fn blocks(alloc: Global, machine: &Machine) -> Result<Vec<Tcb>, NoMemory>
    ensures { IfOk result (λ blocks. blocks.items ≡
        map (λ d. record { id = d.id; thread = opening_thread }) machine.now.threads) }
{
    let mut blocks = Vec::new(alloc);
    for declared in machine.threads() {
        blocks.push(Tcb::new(declared.id()))?;
    }
    Ok(blocks)
}

// The clocks of all processors, each at 0.
fn clocks(alloc: Global, machine: &Machine) -> Result<Vec<u64>, NoMemory>
    ensures { IfOk result (λ clocks. clocks.items ≡ replicate machine.now.cpus 0) }
{
    let mut clocks = Vec::new(alloc);
    clocks.resize(usize::from(machine.cpus()), 0)?;
    Ok(clocks)
}
