//! Stillness: no step but a tick is possible.
ghost use Rattle.std.specs.Prelude.{◌≡◌, Some, OnOk, [], slice_get};
ghost use Rattle.std.specs.List.{list_all};
ghost use Rattle.l4_model.specs.World.{receive_now};
ghost use Rattle.l4_model.specs.Conditions.{receiver_of};
ghost use Rattle.l4_model.specs.Still.{late, is_still_thread};
ghost use Rattle.l4_audit.specs.Inner.Audited.{with_world};
ghost use Rattle.l4_audit.specs.Inner.Stillness.{is_still_now, is_still_found, may_obey, may_stop};
ghost use Rattle.l4_audit.specs.Inner.Stillness.{is_taken, may_arrive, may_decide, may_send};

use crate::found::{Found, Pending};
use crate::world::World;
use l4_script::machine::Machine;
use l4_types::errors::NoMemory;
use l4_types::ids::GlobalId;
use l4_types::steps::CLOCKS;

impl World<'_> {
    /// Advances all clocks to their last value.
    pub(crate) fn stop_clocks(&mut self) -> Result<(), NoMemory>
        ensures { OnOk result (self.new ≡ with_world self.old (late self.old.world)) }
    {
        let cpus = self.clocks.len();
        self.clocks.clear();
        self.clocks.resize(cpus, CLOCKS - 1)?;
        Ok(())
    }

    /// Whether, with the clocks as they are, no retarget is owed and no thread has a possible step.
    pub(crate) fn is_still(&self) -> bool
        ensures { result ≡ is_still_now self.now.machine self.now.world }
    {
        self.owes_nothing() && self.are_still()
    }

    // Whether no thread has a possible step, if no retarget is owed.
    fn are_still(&self) -> bool
        requires { self.now.world.owed ≡ [] }
        ensures { result ≡ list_all (λ d. is_still_thread self.now.machine self.now.world d.id)
            self.now.machine.threads }
    {
        for declared in self.machine.threads() {
            if !self.is_still_thread(declared.id()) {
                return false;
            }
        }
        true
    }

    // Whether a thread has no possible step, if no retarget is owed.
    fn is_still_thread(&self, id: GlobalId) -> bool
        requires { self.now.world.owed ≡ [] }
        ensures { result ≡ is_still_thread self.now.machine self.now.world id }
    {
        let Some(thread) = self.found(id) else {
            return true;
        };
        self.is_still_found(&thread)
    }

    // Whether a thread that was found has no possible step.
    fn is_still_found(&self, thread: &Found) -> bool
        requires { slice_get self.now.world.threads thread.now.at ≡ Some thread.now.now }
        ensures { result ≡ is_still_found self.now.machine self.now.world thread.now }
    {
        let may_go_on = thread.is_ready()
            || may_obey(self.machine, thread)
            || self.may_stop(thread)
            || self.may_send(thread);
        !may_go_on
    }

    // Whether the receive phase of a thread can end without a message.
    fn may_stop(&self, thread: &Found) -> bool
        requires { slice_get self.now.world.threads thread.now.at ≡ Some thread.now.now }
        ensures { result ≡ may_stop self.now.machine self.now.world thread.now
            (receive_now thread.now.now.phase) }
    {
        let Some(receive) = thread.receiving() else {
            return false;
        };
        thread.is_receive_cancelled()
            || ((thread.receive_passed() || self.is_nobody(receive.from()))
                && self.first_accepted(thread, receive.from()).is_none())
    }

    // Whether the undecided send of a thread can be queued or decided.
    fn may_send(&self, thread: &Found) -> bool
        requires { slice_get self.now.world.threads thread.now.at ≡ Some thread.now.now }
        ensures { result ≡ may_send self.now.machine self.now.world thread.now thread.now.now.send }
    {
        match thread.pending() {
            Some(pending) => self.may_decide(&pending),
            None => false,
        }
    }

    // Whether an undecided send can be queued or decided.
    fn may_decide(&self, pending: &Pending) -> bool
        requires { slice_get self.now.world.threads pending.now.sender.at ≡
            Some pending.now.sender.now }
        ensures { result ≡ may_decide self.now.machine self.now.world pending.now }
    {
        let sender = pending.sender();
        self.is_timed_out(pending)
            || self.is_no_destination(pending.send().to())
            || (self.is_waiting(pending) && (sender.is_send_cancelled() || sender.is_deleted()))
            || self.may_arrive(pending)
    }

    // Whether an undecided send can be queued or delivered.
    fn may_arrive(&self, pending: &Pending) -> bool
        requires { slice_get self.now.world.threads pending.now.sender.at ≡
            Some pending.now.sender.now }
        ensures { result ≡ may_arrive self.now.machine self.now.world pending.now
            (receiver_of self.now.machine self.now.world pending.now) }
    {
        let Some(receiver) = self.receiver_of(pending) else {
            return false;
        };
        (!receiver.is_deleted() && !self.is_waiting(pending))
            || self.is_taken(&receiver, pending.sender().place())
    }

    // Whether a sender is the first that a receiver accepts.
    fn is_taken(&self, receiver: &Found, sender: usize) -> bool
        requires { slice_get self.now.world.threads receiver.now.at ≡ Some receiver.now.now }
        ensures { result ≡ is_taken self.now.machine self.now.world receiver.now sender
            (receive_now receiver.now.now.phase) }
    {
        let Some(receive) = receiver.receiving() else {
            return false;
        };
        match self.first_accepted(receiver, receive.from()) {
            Some(first) => first == sender,
            None => false,
        }
    }
}

// Whether the order of a thread can be obeyed.
fn may_obey(machine: &Machine, thread: &Found) -> bool
    ensures { result ≡ may_obey machine.now thread.now.now.order }
{
    match thread.asked() {
        Some(order) => machine.place_of(order.target()).is_some(),
        None => false,
    }
}
