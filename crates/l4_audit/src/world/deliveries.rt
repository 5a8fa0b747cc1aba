//! The step that delivers a send.
ghost use Rattle.std.specs.Prelude.{◌≡◌, ◌<◌, Some, IfOk, length, not};
ghost use Rattle.std.specs.Option.{option_map};
ghost use Rattle.std.specs.Result.{result_err};
ghost use Rattle.l4_model.specs.Machine.{same_cpu};
ghost use Rattle.l4_model.specs.Conditions.{undecided, receiver_of};
ghost use Rattle.l4_model.specs.Rules.{owed_by};
ghost use Rattle.l4_types.specs.Inner.OwedView.{owed_of};
ghost use Rattle.l4_types.specs.StepView.{delivered};
ghost use Rattle.l4_audit.specs.Inner.Audited.{with_world};
ghost use Rattle.l4_audit.specs.Inner.Delivering.{of_telling, taken_over, IsFound};
ghost use Rattle.l4_audit.specs.Reasons.{first_false, reason};
ghost use Rattle.l4_audit.specs.Inner.Taking.{Judged};

use crate::found::{Found, Pending};
use crate::reasons::{Reason, StepFault, need, test};
use crate::world::World;
use l4_script::machine::Machine;
use l4_thread::sends::SendRef;
use l4_types::ids::GlobalId;
use l4_types::letters::Decision;
use l4_types::owed::Owed;
use l4_types::step_ref::DeliveryRef;
use l4_types::steps::Name;

/// Whether two threads are of different processors, or not declared. Where they are the sender and
/// the receiver at hand, as in most traces, nothing is looked up.
#[inline(always)]
pub(crate) fn is_cross(
    machine: &Machine,
    pending: &Pending,
    receiver: &Found,
    actual: GlobalId,
    to: GlobalId,
) -> bool
    requires sender { IsFound machine.now pending.now.sender }
    requires receiver { IsFound machine.now receiver.now }
    ensures { result ≡ not (same_cpu machine.now actual to) }
{
    let sender = pending.sender();
    match (sender.cpu_of(machine, actual), receiver.cpu_of(machine, to)) {
        (Some(from), Some(to)) => from != to,
        _ => true,
    }
}

// Ok where a delivery has this receiver, and the senders, the tag and the words of this send. Else
// the first that differs.
#[inline(always)]
fn tells(
    delivery: &DeliveryRef<'_>,
    machine: &Machine,
    pending: &Pending,
    receiver: &Found,
) -> Result<(), Reason>
    requires sender { IsFound machine.now pending.now.sender }
    requires receiver { IsFound machine.now receiver.now }
    ensures { result_err result
        ≡ first_false (of_telling machine.now delivery.now pending.now receiver.now) }
{
    let sent = pending.send().message();
    let id = receiver.id();
    test(delivery.receiver == id, Reason::OtherReceiver(id))?;
    let (shown, actual) = (sent.shown(), sent.actual());
    test(delivery.message.shown() == shown, Reason::OtherShown(shown))?;
    test(
        delivery.message.actual() == actual,
        Reason::OtherSender(actual),
    )?;
    let cross = is_cross(machine, pending, receiver, actual, delivery.receiver);
    let tag = sent.tag().received(cross, sent.propagated()).raw();
    test(delivery.tag().raw() == tag, Reason::OtherTag(tag))?;
    test(delivery.message.words() == sent.words(), Reason::OtherWords)
}

// The retarget that the delivery of a send leaves owed.
fn owed_by(machine: &Machine, name: Name, send: &SendRef<'_>, receiver: GlobalId) -> Option<Owed>
    ensures { option_map owed_of result ≡ owed_by machine.now name send.now.message receiver }
{
    let message = send.message();
    if machine.retargets() && message.propagated() {
        Some(Owed {
            send: name,
            originator: message.shown(),
            old_partner: message.actual(),
            new_partner: receiver,
        })
    } else {
        None
    }
}

impl World<'_> {
    /// The send that may be delivered, and its receiver.
    #[inline(always)]
    pub(crate) fn may_deliver(
        &self,
        delivery: &DeliveryRef<'_>,
    ) -> Result<(Pending<'_>, Found<'_>), Reason>
        ensures send { IfOk result (λ x.
            undecided self.now.machine self.now.world delivery.now.name ≡ Some x.0) }
        ensures receiver { IfOk result (λ x.
            receiver_of self.now.machine self.now.world x.0 ≡ Some x.1) }
        ensures reason { result_err result
            ≡ reason self.now.machine self.now.world (delivered delivery.now) }
    {
        let pending = need(self.undecided(delivery.name), Reason::NotUndecided)?;
        let to = pending.send().to();
        let receiver = need(self.receiver_of(&pending), Reason::NoReceiver(to))?;
        let receive = need(receiver.receiving(), Reason::NotReceiving(receiver.state()))?;
        let first = need(
            self.first_accepted(&receiver, receive.from()),
            Reason::AcceptsNone,
        )?;
        self.is_first(first, pending.sender().place())?;
        tells(delivery, self.machine, &pending, &receiver)?;
        Ok((pending, receiver))
    }

    /// Delivers the message of the first waiting sender that a receiver accepts, and ends its send.
    /// A retarget may be owed.
    #[inline(always)]
    pub(crate) fn deliver(&mut self, delivery: &DeliveryRef<'_>) -> Result<(), StepFault>
        ensures { Judged self.old (delivered delivery.now) result self.new }
    {
        let (pending, receiver) = self.may_deliver(delivery)?;
        let owed = owed_by(
            self.machine,
            delivery.name,
            pending.send(),
            delivery.receiver,
        );
        let (sender, clock) = pending.sender_now();
        let place = receiver.place();
        self.owe(owed)?;
        self.take_over(sender, place, delivery, clock);
        Ok(())
    }

    // Hands a message to its receiver, and ends its send.
    #[inline(always)]
    fn take_over(&mut self, sender: usize, receiver: usize, delivery: &DeliveryRef<'_>, now: u64)
        requires sender { sender < length self.old.world.threads }
        requires receiver { receiver < length self.old.world.threads }
        ensures { self.new ≡ with_world self.old
            (taken_over sender receiver delivery.now now self.old.world) }
    {
        self.unqueue(sender);
        self.receive(receiver, delivery);
        self.end_send(sender, Decision::Delivered, now);
    }
}
