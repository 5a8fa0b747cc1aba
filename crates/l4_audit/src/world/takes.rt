//! One step after another.
ghost use Rattle.std.specs.Prelude.{◌≡◌};
ghost use Rattle.l4_types.specs.StepView.{seen};
ghost use Rattle.l4_audit.specs.Inner.Audited.{IsPlaced};
ghost use Rattle.l4_audit.specs.Reasons.{reason};
ghost use Rattle.l4_audit.specs.Inner.Taking.{Judged};

use crate::reasons::{Reason, StepFault};
use crate::world::World;
use l4_types::step_ref::StepRef;

impl World<'_> {
    /// Takes a step, if it is possible. Else nothing changes. A delivery that leaves a retarget
    /// owed takes memory.
    #[inline(always)]
    pub fn take(&mut self, step: &StepRef<'_>) -> Result<(), StepFault>
        requires { IsPlaced self.old }
        ensures { Judged self.old (seen step.now) result self.new }
    {
        match step {
            StepRef::Local(id) => self.local(*id),
            StepRef::Begin(name) => self.begin(*name),
            StepRef::Queue(name) => self.queue_send(*name),
            StepRef::Deliver(delivery) => self.deliver(delivery),
            StepRef::Wait(id) => self.wait(*id),
            StepRef::SendTimeout(name) => self.send_timeout(*name),
            StepRef::ReceiveTimeout(id) => self.receive_timeout(*id),
            StepRef::SendNobody(name) => self.send_nobody(*name),
            StepRef::ReceiveNobody(id) => self.receive_nobody(*id),
            StepRef::SendCancel(name) => self.send_cancel(*name),
            StepRef::ReceiveCancel(id) => self.receive_cancel(*id),
            StepRef::Drop(name) => self.drop_deleted(*name),
            StepRef::Order {
                caller,
                target,
                what,
            } => self.order(*caller, *target, *what),
            StepRef::Obey(caller) => self.obey_order(*caller),
            StepRef::Tick(tick) => self.tick(*tick),
            StepRef::Retarget(name) => self.retarget(*name),
        }
    }

    /// Why a step is not possible: the first condition of its rule that is false. None if the step
    /// is possible.
    pub fn reason(&self, step: &StepRef<'_>) -> Option<Reason>
        ensures { result ≡ reason self.now.machine self.now.world (seen step.now) }
    {
        match step {
            StepRef::Local(id) => self.may_run(*id).err(),
            StepRef::Begin(name) => self.may_begin(*name).err(),
            StepRef::Queue(name) => self.may_queue(*name).err(),
            StepRef::Deliver(delivery) => self.may_deliver(delivery).err(),
            StepRef::Wait(id) => self.may_wait(*id).err(),
            StepRef::SendTimeout(name) => self.may_send_timeout(*name).err(),
            StepRef::ReceiveTimeout(id) => self.may_receive_timeout(*id).err(),
            StepRef::SendNobody(name) => self.may_send_nobody(*name).err(),
            StepRef::ReceiveNobody(id) => self.may_receive_nobody(*id).err(),
            StepRef::SendCancel(name) => self.may_send_cancel(*name).err(),
            StepRef::ReceiveCancel(id) => self.may_receive_cancel(*id).err(),
            StepRef::Drop(name) => self.may_drop(*name).err(),
            StepRef::Order {
                caller,
                target,
                what,
            } => self.may_order(*caller, *target, *what).err(),
            StepRef::Obey(caller) => self.may_obey(*caller).err(),
            StepRef::Tick(tick) => self.may_tick(*tick).err(),
            StepRef::Retarget(name) => self.may_retarget(*name).err(),
        }
    }
}
