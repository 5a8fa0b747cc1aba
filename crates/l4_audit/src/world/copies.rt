//! Copies of worlds.
ghost use Rattle.std.specs.Prelude.{◌≡◌, IfOk, map};

use crate::world::World;
use l4_thread::tcb::Tcb;
use l4_types::errors::NoMemory;
use l4_types::owed::Owed;
use std::alloc::Global;

impl<'m> World<'m> {
    /// A copy.
    pub fn try_clone(&self, alloc: Global) -> Result<World<'m>, NoMemory>
        ensures { IfOk result (λ copy. copy ≡ self.now) }
    {
        Ok(World {
            machine: self.machine,
            threads: duplicates(alloc, &self.threads)?,
            lists: self.lists.try_clone(alloc)?,
            clocks: self.clocks.clone()?,
            owed: copied(alloc, &self.owed)?,
        })
    }
}

fn duplicates(alloc: Global, threads: &[Tcb]) -> Result<Vec<Tcb>, NoMemory>
    ensures { IfOk result (λ copies. copies.items ≡ threads.now) }
{
    let mut copies = Vec::with_capacity(alloc, threads.len())?;
    for thread in threads {
        copies.push(thread.duplicate())?;
    }
    Ok(copies)
}

fn copied(alloc: Global, owed: &[Owed]) -> Result<Vec<Owed>, NoMemory>
    ensures { IfOk result (λ copy. copy.items ≡ owed.now) }
{
    let mut copy = Vec::with_capacity(alloc, owed.len())?;
    copy.extend_from_slice(owed)?;
    Ok(copy)
}
