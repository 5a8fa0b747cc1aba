//! What a search for threads that are stuck for ever, or for a world that meets a condition, sees of
//! a world.
ghost use Rattle.std.specs.Prelude.{◌≡◌, ◌<◌, IfOk, length, map};
ghost use Rattle.l4_model.specs.Conditions.{found, found_at};
ghost use Rattle.l4_futures.specs.Choices.{possible};
ghost use Rattle.l4_futures.specs.Stuck.{names_one};
ghost use Rattle.l4_forever.specs.Waits.{receive_wait, wait_at, waits_in};

use crate::outlook::Outlook;
use l4_audit::found::Found;
use l4_forever::Wait;
use l4_types::errors::NoMemory;
use l4_types::ids::{GlobalId, Kind, ThreadId};
use std::alloc::Global;

impl Outlook<'_> {
    /// The thread at a place of the order of declaration, as it is here.
    pub fn found_at(&self, place: usize) -> Option<Found<'_>>
        ensures { result ≡ found_at self.now.machine self.now.world place }
    {
        self.world.found_at(place)
    }

    /// The thread of an id, as it is here, if one is declared.
    pub fn found(&self, id: GlobalId) -> Option<Found<'_>>
        ensures { result ≡ found self.now.machine self.now.world id }
    {
        self.world.found(id)
    }

    /// Each declared thread is one of the world.
    pub fn facts(&self)
        ensures { length self.now.world.threads ≡ length self.now.machine.threads }
    {
        self.world.facts();
    }

    /// All entries that are possible here, in rising order.
    ///
    /// `NoMemory`: memory was refused.
    pub fn possible(&self, alloc: Global) -> Result<Vec<u32>, NoMemory>
        ensures { IfOk result (λ entries. entries.items
            ≡ map (λ c. c.entry) (possible self.now.machine self.now.world)) }
    {
        let mut entries = Vec::new(alloc);
        for entry in 0..self.entry_count() {
            let Some(_step) = self.open_step(entry) else {
                continue;
            };
            entries.push(entry)?;
        }
        Ok(entries)
    }

    /// In which phase each thread waits here, in order of declaration.
    ///
    /// `NoMemory`: memory was refused.
    pub fn waits(&self, alloc: Global) -> Result<Vec<Wait>, NoMemory>
        ensures { IfOk result (λ waits. waits.items ≡ waits_in self.now.world) }
    {
        self.world.facts();
        let mut waits = Vec::new(alloc);
        for place in 0..self.world.machine().threads().len() {
            waits.push(self.wait_at(place))?;
        }
        Ok(waits)
    }

    // In which phase the thread at a place waits.
    fn wait_at(&self, place: usize) -> Wait
        requires { place < length self.now.machine.threads }
        ensures { result ≡ wait_at self.now.world place }
    {
        self.world.facts();
        let Some(found) = self.world.found_at(place) else {
            return Wait::Neither;
        };
        if found.tcb.is_sending() {
            return Wait::Send;
        }
        match found.receiving() {
            Some(receive) => receive_wait(names_one(receive.from())),
            None => Wait::Neither,
        }
    }
}

fn receive_wait(is_closed: bool) -> Wait
    ensures { result ≡ receive_wait is_closed }
{
    if is_closed {
        Wait::Receive
    } else {
        Wait::Neither
    }
}

// Whether an id names one thread alone.
fn names_one(id: ThreadId) -> bool
    ensures { result ≡ names_one id }
{
    match id.kind() {
        Kind::Nil | Kind::Any | Kind::AnyLocal => false,
        Kind::Local | Kind::Global { .. } => true,
    }
}
