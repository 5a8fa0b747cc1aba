//! Where a step is possible in a world.
ghost use Rattle.std.specs.Prelude.{◌≡◌, ◌==◌, ◌∷◌, [], Some, slice_get};
ghost use Rattle.std.specs.Result.{result_err};
ghost use Rattle.l4_model.specs.Conditions.{is_waiting, first_accepted, shows_accepted, is_nobody};
ghost use Rattle.l4_model.specs.Conditions.{is_no_destination, is_refusable, is_timed_out};
ghost use Rattle.l4_model.specs.Conditions.{receiver_of, found_by};
ghost use Rattle.l4_audit.specs.Reasons.{first_false, none_accepted, test};
ghost use Rattle.l4_audit.specs.declared.reasons.Reason.TheVariants.{NotFirst};
ghost use Rattle.l4_audit.specs.Starting.{id_at};

use crate::found::{Found, Pending, accepts};
use crate::periods::{has_passed, is_zero};
use crate::reasons::Reason;
use crate::world::World;
use l4_types::ids::{GlobalId, Kind, ThreadId};

impl World<'_> {
    /// Whether an undecided send stands in a list.
    pub(crate) fn is_waiting(&self, pending: &Pending) -> bool
        requires { slice_get self.now.world.threads pending.now.sender.at ≡
            Some pending.now.sender.now }
        ensures { result ≡ is_waiting self.now.world pending.now }
    {
        self.lists.is_queued(pending.sender().place())
    }

    // Whether the undecided send of the thread at a place shows a sender that is accepted.
    fn shows_accepted(&self, from: ThreadId, receiver: GlobalId, sender: usize) -> bool
        ensures { result ≡ shows_accepted self.now.machine from receiver
            (slice_get self.now.world.threads sender) }
    {
        match self.threads.get(sender).and_then(|tcb| tcb.send()) {
            Some(send) => accepts(self.machine, from, send.message().shown(), receiver),
            None => false,
        }
    }

    /// The place of the first waiting sender that a receive phase of a thread with this specifier
    /// would accept.
    pub(crate) fn first_accepted(&self, receiver: &Found, from: ThreadId) -> Option<usize>
        requires { slice_get self.now.world.threads receiver.now.at ≡ Some receiver.now.now }
        ensures { result ≡ first_accepted self.now.machine self.now.world receiver.now from }
    {
        let id = receiver.id();
        self.lists
            .waiting_at(receiver.place())
            .find(|sender| self.shows_accepted(from, id, *sender))
    }

    // The id of the thread at a place.
    fn id_at(&self, place: usize) -> GlobalId
        ensures { result ≡ id_at self.now.machine place }
    {
        match self.machine.threads().get(place) {
            Some(declared) => declared.id(),
            None => GlobalId::default(),
        }
    }

    /// Ok if no waiting send is accepted by this specifier. Else `AcceptsFirst` with the sender of
    /// the first that is.
    pub(crate) fn accepts_none(&self, receiver: &Found, from: ThreadId) -> Result<(), Reason>
        requires { slice_get self.now.world.threads receiver.now.at ≡ Some receiver.now.now }
        ensures { result_err result ≡ first_false
            (none_accepted self.now.machine
            (first_accepted self.now.machine self.now.world receiver.now from) ∷ []) }
    {
        match self.first_accepted(receiver, from) {
            Some(first) => Err(Reason::AcceptsFirst(self.id_at(first))),
            None => Ok(()),
        }
    }

    /// Ok if this sender is the first acceptable one. Else `NotFirst` with the first.
    pub(crate) fn is_first(&self, first: usize, sender: usize) -> Result<(), Reason>
        ensures { result_err result ≡ first_false
            (test (first == sender) (NotFirst (id_at self.now.machine first)) ∷ []) }
    {
        if first != sender {
            return Err(Reason::NotFirst(self.id_at(first)));
        }
        Ok(())
    }

    /// Whether nobody has this id: it is local, undeclared, or of a deleted thread.
    pub(crate) fn is_nobody(&self, id: ThreadId) -> bool
        ensures { result ≡ is_nobody id (found_by self.now.machine self.now.world id) }
    {
        match id.kind() {
            Kind::Local => true,
            Kind::Global { .. } => self.found_by(id).is_none_or(|found| found.is_deleted()),
            Kind::Nil | Kind::Any | Kind::AnyLocal => false,
        }
    }

    /// Whether nobody has the destination of a send.
    pub(crate) fn is_no_destination(&self, id: ThreadId) -> bool
        ensures { result ≡ is_no_destination id (found_by self.now.machine self.now.world id) }
    {
        matches!(id.kind(), Kind::Any | Kind::AnyLocal) || self.is_nobody(id)
    }

    /// Whether a send of timeout zero may be refused.
    pub(crate) fn is_refusable(&self, pending: &Pending) -> bool
        ensures { result ≡ is_refusable self.now.machine pending.now.send
            (receiver_of self.now.machine self.now.world pending.now) }
    {
        match self.receiver_of(pending) {
            Some(receiver) => {
                !receiver.is_deleted()
                    && !receiver.may_still_accept(self.machine, pending.send().message().shown())
            }
            None => false,
        }
    }

    /// Whether an undecided send may time out.
    pub(crate) fn is_timed_out(&self, pending: &Pending) -> bool
        requires { slice_get self.now.world.threads pending.now.sender.at ≡
            Some pending.now.sender.now }
        ensures { result ≡ is_timed_out self.now.machine self.now.world pending.now }
    {
        let send = pending.send();
        if !has_passed(send.period(), send.since(), pending.sender().clock()) {
            return false;
        }
        if is_zero(send.period()) {
            self.is_refusable(pending)
        } else {
            self.is_waiting(pending)
        }
    }
}
