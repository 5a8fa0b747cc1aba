//! The steps that end a receive phase without a message, and those of orders.
ghost use Rattle.std.specs.Prelude.{◌≡◌, Some, IfOk};
ghost use Rattle.std.specs.Result.{result_err};
ghost use Rattle.l4_model.specs.Conditions.{found};
ghost use Rattle.l4_model.specs.Steps.{ReceiveTimeout, ReceiveNobody, ReceiveCancel, Obey};
ghost use Rattle.l4_types.specs.StepView.{order_kind_of};
ghost use Rattle.l4_audit.specs.Inner.Audited.{IsAsked, IsPlaced};
ghost use Rattle.l4_audit.specs.Reasons.{reason};
ghost use Rattle.l4_audit.specs.Inner.Taking.{Judged};

use crate::found::Found;
use crate::reasons::{Reason, StepFault, need, test};
use crate::world::World;
use l4_types::errors::IpcError;
use l4_types::ids::GlobalId;
use l4_types::steps::OrderKind;

impl World<'_> {
    /// The thread whose receive phase may time out.
    #[inline(always)]
    pub(crate) fn may_receive_timeout(&self, id: GlobalId) -> Result<Found<'_>, Reason>
        ensures thread { IfOk result (λ t. found self.now.machine self.now.world id ≡ Some t) }
        ensures reason { result_err result ≡
            reason self.now.machine self.now.world (ReceiveTimeout id) }
    {
        let thread = need(self.found(id), Reason::Undeclared)?;
        let receive = need(thread.receiving(), Reason::NotReceiving(thread.state()))?;
        test(
            thread.receive_passed(),
            Reason::ReceiveNotPassed(thread.clock()),
        )?;
        self.accepts_none(&thread, receive.from())?;
        Ok(thread)
    }

    /// Times a receive phase out.
    #[inline(always)]
    pub(crate) fn receive_timeout(&mut self, id: GlobalId) -> Result<(), StepFault>
        ensures { Judged self.old (ReceiveTimeout id) result self.new }
    {
        let thread = self.may_receive_timeout(id)?;
        let place = thread.place();
        self.fail(place, IpcError::ReceiveTimeout);
        Ok(())
    }

    /// The thread whose receive phase may be refused: nobody has the id that it names.
    pub(crate) fn may_receive_nobody(&self, id: GlobalId) -> Result<Found<'_>, Reason>
        ensures thread { IfOk result (λ t. found self.now.machine self.now.world id ≡ Some t) }
        ensures reason { result_err result ≡
            reason self.now.machine self.now.world (ReceiveNobody id) }
    {
        let thread = need(self.found(id), Reason::Undeclared)?;
        let receive = need(thread.receiving(), Reason::NotReceiving(thread.state()))?;
        let from = receive.from();
        test(self.is_nobody(from), Reason::HasPartner(from))?;
        self.accepts_none(&thread, from)?;
        Ok(thread)
    }

    /// Refuses a receive phase: nobody has the id that it names.
    pub(crate) fn receive_nobody(&mut self, id: GlobalId) -> Result<(), StepFault>
        ensures { Judged self.old (ReceiveNobody id) result self.new }
    {
        let thread = self.may_receive_nobody(id)?;
        let place = thread.place();
        self.fail(place, IpcError::ReceiveNobody);
        Ok(())
    }

    /// The thread whose receive phase may be cancelled.
    pub(crate) fn may_receive_cancel(&self, id: GlobalId) -> Result<Found<'_>, Reason>
        ensures thread { IfOk result (λ t. found self.now.machine self.now.world id ≡ Some t) }
        ensures reason { result_err result ≡
            reason self.now.machine self.now.world (ReceiveCancel id) }
    {
        let thread = need(self.found(id), Reason::Undeclared)?;
        need(thread.receiving(), Reason::NotReceiving(thread.state()))?;
        test(thread.is_receive_cancelled(), Reason::ReceiveNotCancelled)?;
        Ok(thread)
    }

    /// Cancels a receive phase.
    pub(crate) fn receive_cancel(&mut self, id: GlobalId) -> Result<(), StepFault>
        ensures { Judged self.old (ReceiveCancel id) result self.new }
    {
        let thread = self.may_receive_cancel(id)?;
        let place = thread.place();
        self.fail(place, IpcError::ReceiveCancelled);
        Ok(())
    }

    /// The thread whose order may be done, the place of its target, and what is to be done.
    pub(crate) fn may_obey(&self, caller: GlobalId) -> Result<(Found<'_>, usize, OrderKind), Reason>
        ensures thread { IfOk result
            (λ x. found self.now.machine self.now.world caller ≡ Some x.0) }
        ensures order { IfOk result (λ x. IsAsked self.now.machine x.0 x.1 (order_kind_of x.2)) }
        ensures reason { result_err result ≡ reason self.now.machine self.now.world (Obey caller) }
    {
        let thread = need(self.found(caller), Reason::Undeclared)?;
        let order = need(thread.asked(), Reason::AskedNothing)?;
        let target = need(
            self.machine.place_of(order.target()),
            Reason::TargetUndeclared(order.target()),
        )?;
        Ok((thread, target, order.what()))
    }

    /// Obeys the order of a thread.
    pub(crate) fn obey_order(&mut self, caller: GlobalId) -> Result<(), StepFault>
        requires { IsPlaced self.old }
        ensures { Judged self.old (Obey caller) result self.new }
    {
        let (thread, target, what) = self.may_obey(caller)?;
        let place = thread.place();
        self.ask(target, what);
        self.obey(place);
        Ok(())
    }
}
