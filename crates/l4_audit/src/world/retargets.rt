//! Owed retargets: the guard of a send, and the step that does one.
ghost use Rattle.std.specs.Prelude.{◌≡◌, ◌<◌, Some, IfOk, OnOk, OnErr, find, length};
ghost use Rattle.std.specs.List.{list_any};
ghost use Rattle.std.specs.Option.{option_copied, option_map};
ghost use Rattle.std.specs.Result.{result_err};
ghost use Rattle.l4_model.specs.World.{change, owed_of as owed_named, others_owed, must_wait};
ghost use Rattle.l4_model.specs.Effects.{turns};
ghost use Rattle.l4_model.specs.Conditions.{found};
ghost use Rattle.l4_model.specs.Steps.{owing, Retarget};
ghost use Rattle.l4_types.specs.Inner.OwedView.{owed_of};
ghost use Rattle.l4_audit.specs.Inner.Audited.{with_world};
ghost use Rattle.l4_audit.specs.Reasons.{reason};
ghost use Rattle.l4_audit.specs.Inner.Taking.{Judged};
ghost use Rattle.l4_audit.specs.Inner.Owing.{is_of_name, holds_up};
ghost use Rattle.l4_audit.specs.Inner.Stillness.{owes_nothing};

use crate::found::Found;
use crate::reasons::{Reason, StepFault, need};
use crate::world::World;
use l4_thread::sends::is_id_of;
use l4_types::errors::NoMemory;
use l4_types::ids::{GlobalId, ThreadId};
use l4_types::owed::Owed;
use l4_types::steps::Name;

// The retarget of this name.
fn named(owed: &[Owed], name: Name) -> Option<&Owed>
    ensures { option_copied result ≡ find (is_of_name name) owed.now }
{
    owed.iter().find(|owed| name == owed.send)
}

// Whether one of these owed retargets holds up a send of this thread to this destination.
fn is_held_up(owed: &[Owed], sender: GlobalId, to: ThreadId) -> bool
    ensures { result ≡ list_any (holds_up sender to) owed.now }
{
    owed.iter().any(|owed| sender == owed.new_partner && is_id_of(to, owed.originator))
}

impl World<'_> {
    /// Whether no retarget is owed.
    pub(crate) fn owes_nothing(&self) -> bool
        ensures { result ≡ owes_nothing self.now.world }
    {
        self.owed.as_slice().is_empty()
    }

    /// Whether a send must wait: a retarget of its destination to its sender is owed.
    pub(crate) fn must_wait(&self, sender: GlobalId, to: ThreadId) -> bool
        ensures { result ≡ must_wait self.now.world.owed sender to }
    {
        is_held_up(self.owed.as_slice(), sender, to)
    }

    // The owed retarget of this name.
    fn owed_named(&self, name: Name) -> Option<Owed>
        ensures { option_map owed_of result ≡ owed_named self.now.world.owed name }
    {
        named(self.owed.as_slice(), name).copied()
    }

    /// Appends an owed retarget, if there is one.
    pub(crate) fn owe(&mut self, owed: Option<Owed>) -> Result<(), NoMemory>
        ensures ok { OnOk result
            (self.new ≡ with_world self.old (owing (option_map owed_of owed) self.old.world)) }
        ensures err { OnErr result (self.new ≡ self.old) }
    {
        let Some(owed) = owed else {
            return Ok(());
        };
        self.owed.push(owed)?;
        Ok(())
    }

    // Removes the owed retarget of this name.
    fn forget(&mut self, name: Name)
        ensures { self.new ≡ with_world self.old (record self.old.world {
          owed = others_owed self.old.world.owed name;
        }) }
    {
        self.owed.retain(|owed| name != owed.send);
    }

    // Turns the originator of a message to its new partner.
    fn turn(&mut self, place: usize, owed: &Owed)
        requires { place < length self.old.world.threads }
        ensures { self.new ≡ with_world self.old
            (change self.old.world place (turns (owed_of owed.now))) }
    {
        self.threads[place].turn_to(owed.old_partner, owed.new_partner);
    }

    /// The retarget that may be done, and its originator.
    pub(crate) fn may_retarget(&self, name: Name) -> Result<(Owed, Found<'_>), Reason>
        ensures owed { IfOk result (λ x. owed_named self.now.world.owed name ≡ Some (owed_of x.0)) }
        ensures originator { IfOk result
            (λ x. found self.now.machine self.now.world x.0.originator ≡ Some x.1) }
        ensures reason { result_err result ≡
            reason self.now.machine self.now.world (Retarget name) }
    {
        let owed = need(self.owed_named(name), Reason::NotOwed)?;
        let originator = need(
            self.found(owed.originator),
            Reason::OriginatorUndeclared(owed.originator),
        )?;
        Ok((owed, originator))
    }

    /// Turns the originator of a delivered send to the thread that received it. The retarget is
    /// owed no longer.
    pub(crate) fn retarget(&mut self, name: Name) -> Result<(), StepFault>
        ensures { Judged self.old (Retarget name) result self.new }
    {
        let (owed, originator) = self.may_retarget(name)?;
        let place = originator.place();
        self.forget(name);
        self.turn(place, &owed);
        Ok(())
    }
}
