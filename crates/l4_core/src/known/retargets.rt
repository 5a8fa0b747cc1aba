//! Retargets that are owed, at a machine of profile 2.
ghost use Rattle.std.specs.Prelude.{◌≡◌, ◌<◌, None, Some, is_some, length, true};
ghost use Rattle.std.specs.Option.{option_map};
ghost use Rattle.l4_model.specs.World.{Send};
ghost use Rattle.l4_model.specs.Rules.{owed_by};
ghost use Rattle.l4_types.specs.Inner.OwedView.{owed_of};
ghost use Rattle.l4_core_model.specs.Local.{declared, last_name};
ghost use Rattle.l4_core_model.specs.Local.{owed_beside, thread};
ghost use Rattle.l4_core.specs.Inner.Turning.{IsSender};

use crate::known::ProcessorState;
use l4_types::owed::Owed;

impl ProcessorState<'_> {
    /// What the delivery of a sender's message to a receiver leaves owed.
    #[inline(always)]
    pub(crate) fn owed_by(&self, receiver: usize, sender: usize) -> Option<Owed>
        requires receiver { receiver < length self.now.machine.threads }
        requires sender { IsSender self.now sender }
        ensures value { (send : Send) → (thread self.now.local sender).send ≡ Some send →
            option_map owed_of result ≡
            owed_by self.now.machine (last_name self.now.machine self.now.local sender) send.message
            (declared self.now.machine receiver).id }
        ensures profile { is_some result ≡ true → self.now.machine.retargeting ≡ true }
    {
        if !self.machine.retargets() || !self.message(sender).propagated() {
            return None;
        }
        let message = self.message(sender);
        Some(Owed {
            send: self.last_name(sender),
            originator: message.shown(),
            old_partner: message.actual(),
            new_partner: self.id(receiver),
        })
    }

    /// Whether a retarget is kept beside a thread.
    pub(crate) fn keeps_owed(&self, place: usize) -> bool
        requires { place < length self.now.machine.threads }
        ensures { result ≡ is_some (owed_beside self.now.local place) }
    {
        self.machine.retargets() && self.owed[place].is_some()
    }
}
