//! The world that entries lead to.
ghost use Rattle.std.specs.Prelude.{◌≡◌, ◌+◌, ◌^◌, ◌<◌, ◌++◌, ◌∷◌, [], IfOk, IsSome, List, OnErr};
ghost use Rattle.std.specs.Prelude.{OnOk, ℕ, map};
ghost use Rattle.std.specs.Option.{option_map};
ghost use Rattle.l4_model.specs.Machine.{Machine};
ghost use Rattle.l4_types.specs.StepView.{seen, step_of};
ghost use Rattle.l4_states.specs.Inner.Bytes.{bytes_of};
ghost use Rattle.l4_futures.specs.Choices.{after_entry, entry_count, tried};
ghost use Rattle.l4_futures.specs.Inner.Codes.{code_of};
ghost use Rattle.l4_futures.specs.Inner.Ends.{is_end};
ghost use Rattle.l4_outlooks.specs.Inner.Foreseen.{Foreseen, IsBehind, IsLed, opens};
ghost use Rattle.l4_outlooks.specs.Inner.Named.{open_step};
ghost use Rattle.l4_outlooks.specs.Inner.Standing.{left_alone};

mod looks;

use crate::alone::Alone;
use crate::code::code_of;
use crate::named::{KINDS, may_name, named};
use crate::timed::know_times;
use l4_audit::world::World;
use l4_script::machine::Machine;
use l4_types::errors::NoMemory;
use l4_types::step_ref::{DeliveryRef, StepRef};
use l4_types::steps::Step;
use std::alloc::{AllocError, Global};
use std::marker::Model;

/// The world that entries lead to from the opening of a machine, whatever time passes: each finite
/// period that stands may be over at once, so its clocks stay at 0.
#[derive(Drop)]
pub struct Outlook<'m> {
    world: World<'m>,
    // The number of entries that led here.
    taken: u32,
}

impl<'m> Model for Outlook<'m> {
    ghost use Rattle.l4_outlooks.specs.Inner.Foreseen.{Foreseen, IsForeseen};

    ghost Value = { Foreseen };

    ghost view = { λ o. record {
      machine = o.world.machine;
      world = o.world.world;
      taken = o.taken;
    } };

    ghost invariant = { λ o. IsForeseen o.world.machine o.world.world o.taken };
}

impl<'m> Outlook<'m> {
    /// The opening of a machine.
    pub fn new(alloc: Global, machine: &'m Machine) -> Result<Outlook<'m>, NoMemory>
        ensures { IfOk result (λ outlook. outlook ≡ opens machine.now) }
    {
        know_times(machine);
        let world = World::new(alloc, machine)?;
        Ok(Outlook { world, taken: 0 })
    }

    /// A copy.
    pub fn try_clone(&self, alloc: Global) -> Result<Outlook<'m>, NoMemory>
        ensures { IfOk result (λ copy. copy ≡ self.now) }
    {
        let world = self.world.try_clone(alloc)?;
        Ok(Outlook {
            world,
            taken: self.taken,
        })
    }

    /// Goes on by an entry that is possible here. If memory is refused, nothing changes.
    pub fn take(&mut self, entry: u32) -> Result<(), NoMemory>
        requires possible { IsSome (after_entry self.old.machine self.old.world entry) }
        requires room { self.old.taken + 1 < 2 ^ 20 }
        ensures ok { OnOk result (IsBehind self.old entry self.new) }
        ensures err { OnErr result (self.new ≡ self.old) }
    {
        let Some(step) = self.open_step(entry) else {
            return Ok(());
        };
        match step.as_delivery() {
            Ok(delivery) => {
                // Its words are copied, since they are those of the world that changes.
                let delivery = delivery.to_delivery();
                self.world
                    .take_late(&Step::Deliver(DeliveryRef::from(&delivery)))?;
                self.taken += 1;
            }
            Err(step) => {
                self.world.take_late(&step)?;
                self.taken += 1;
            }
        }
        Ok(())
    }

    /// The step that an entry names, if it is possible here.
    pub fn step(&self, entry: u32) -> Option<Step>
        ensures { option_map step_of result ≡ open_step self.now.machine self.now.world entry }
    {
        let step = self.open_step(entry)?;
        Some(step.to_step())
    }

    // The step that an entry names, if it is possible here. Most entries name none.
    fn open_step(&self, entry: u32) -> Option<StepRef<'_>>
        ensures { option_map seen result ≡ open_step self.now.machine self.now.world entry }
    {
        self.world.machine().facts();
        if may_name(&self.world, entry) {
            self.named_step(entry)
        } else {
            None
        }
    }

    // The same, for an entry that may name one: what may hold a step is cleared first.
    #[inline(never)]
    fn named_step(&self, entry: u32) -> Option<StepRef<'_>>
        ensures { option_map seen result ≡ open_step self.now.machine self.now.world entry }
    {
        self.world.machine().facts();
        let step = named(&self.world, entry)?;
        if self.world.is_possible_late(&step) {
            Some(step)
        } else {
            None
        }
    }

    /// The entries by which a search goes on from here, in rising order: the first whose step
    /// stands alone, or else all that are possible.
    pub fn choices(&self, alloc: Global, alone: &Alone) -> Result<Vec<u32>, NoMemory>
        requires { alone.now ≡ left_alone self.now.machine }
        ensures { IfOk result (λ entries. entries.items
            ≡ map (λ c. c.entry) (tried self.now.machine self.now.world)) }
    {
        let mut entries = Vec::new(alloc);
        for entry in 0..self.entry_count() {
            let Some(step) = self.open_step(entry) else {
                continue;
            };
            if alone.has((entry / KINDS) as usize, &step) {
                return Ok(vec![in alloc; entry]?);
            }
            entries.push(entry)?;
        }
        Ok(entries)
    }

    /// Whether no entry is possible here.
    pub fn is_end(&self) -> bool
        ensures { result ≡ is_end self.now.machine self.now.world }
    {
        for entry in 0..self.entry_count() {
            match self.open_step(entry) {
                Some(_) => return false,
                None => {}
            }
        }
        true
    }

    /// The code of the world. Worlds of equal codes have the same futures.
    ///
    /// `AllocError`: memory was refused.
    pub fn code(&self, alloc: Global) -> Result<Vec<u8>, AllocError>
        ensures { IfOk result (λ bytes. bytes.items
            ≡ bytes_of (code_of self.now.machine self.now.world)) }
    {
        code_of(alloc, &self.world)
    }

    // The number of entries that name a step here, or would if it were possible.
    fn entry_count(&self) -> u32
        ensures { result ≡ entry_count self.now.machine self.now.world }
    {
        let threads = self.world.machine().threads();
        threads.len() as u32 * KINDS + self.world.owed().len() as u32
    }
}

/// Where entries lead here, they and one more lead to where that one leads from here.
pub fn law_led()
    ensures { (m : Machine) (entries : List ℕ) (entry : ℕ) (o p : Foreseen) → IsLed m entries o →
        IsBehind o entry p → IsLed m (entries ++ entry ∷ []) p }
{}
