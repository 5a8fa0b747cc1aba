//! The fast path: a send that its receiver takes at once goes from register to register.
ghost use Rattle.std.specs.Prelude.{◌≡◌, ◌<◌, ◌≤◌, Some};
ghost use Rattle.l4_model.specs.Machine.{most_instructions};
ghost use Rattle.l4_model.specs.Conditions.{act_of, instruction};
ghost use Rattle.l4_model.specs.Rules.{id_from};
ghost use Rattle.l4_script.specs.Inner.Scripts.{id_from_of, ipc_of};
ghost use Rattle.l4_core_model.specs.Local.{thread, held};
ghost use Rattle.l4_core_model.specs.Acts.{acts};
ghost use Rattle.l4_core.specs.Inner.FastPath.{fast_receiver};
ghost use Rattle.l4_core.specs.Inner.Turning.{Does, IsAtHand, IsOwnOf};

use crate::event_buffer::EventBuffer;
use crate::processor::Core;
use l4_history::sink::Sink;
use l4_script::instructions::Ipc;
use l4_types::step_ref::DeliveryRef;

impl Core<'_> {
    /// Runs an Ipc whose send its receiver takes at once. The send is begun, queued and delivered
    /// in one go: it stands in no list, and nothing of it is kept.
    #[inline(always)]
    pub(super) fn send_fast<S: Sink>(
        &mut self,
        receiver: usize,
        sender: usize,
        ipc: &Ipc,
        buffer: &mut EventBuffer<S>,
    )
        requires receiver { IsOwnOf self.old receiver }
        requires hand { IsAtHand self.old sender }
        requires instr { ipc_of ipc.now ≡
            instruction (held self.old.machine self.old.local sender) }
        requires within { (thread self.old.local sender).context.place < most_instructions }
        requires count { (thread self.old.local sender).context.begun < self.old.local.stamp }
        requires fast { fast_receiver self.old.machine self.old.cpu self.old.local sender
            (id_from (thread self.old.local sender).context (id_from_of ipc.now.to)) ≡
            Some receiver }
        requires room { 3 ≤ buffer.old.room }
        ensures { Does (acts self.old.machine self.old.cpu sender
            (act_of self.old.machine (held self.old.machine self.old.local sender)))
            self.old self.new buffer.old buffer.new }
    {
        self.known.facts();
        let delivery = DeliveryRef {
            name: self.known.next_name(sender),
            receiver: self.known.id(receiver),
            message: self.known.outgoing(sender),
            cross: false,
        };
        let tag = delivery.tag();
        buffer.emit_sent(delivery);
        self.receive_from(receiver, sender, tag);
        self.pass(sender, ipc);
    }
}
