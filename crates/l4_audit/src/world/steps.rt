//! The steps of a thread's own instructions, and of the clocks.
ghost use Rattle.std.specs.Prelude.{◌≡◌, ◌<◌, ◌+◌, ◌^◌, Some, IfOk};
ghost use Rattle.std.specs.Result.{result_err};
ghost use Rattle.l4_model.specs.Conditions.{found, act_of};
ghost use Rattle.l4_model.specs.Steps.{Local, Begin, Wait, Order, Tick as Ticks, order_of};
ghost use Rattle.l4_types.specs.StepView.{order_kind_of};
ghost use Rattle.l4_audit.specs.Reasons.{reason};
ghost use Rattle.l4_audit.specs.Inner.Taking.{Judged};

use crate::found::Found;
use crate::reasons::{Reason, StepFault, need, test};
use crate::world::World;
use l4_thread::orders::PendingOrder;
use l4_types::ids::GlobalId;
use l4_types::steps::{Name, OrderKind, Tick};

impl World<'_> {
    /// The thread that may run an instruction that concerns nobody else, or end.
    #[inline(always)]
    pub(crate) fn may_run(&self, id: GlobalId) -> Result<Found<'_>, Reason>
        ensures thread { IfOk result (λ t. found self.now.machine self.now.world id ≡ Some t) }
        ensures reason { result_err result ≡ reason self.now.machine self.now.world (Local id) }
    {
        let thread = need(self.found(id), Reason::Undeclared)?;
        test(thread.is_ready(), Reason::NotReady(thread.state()))?;
        test(thread.runs_alone(self.machine), Reason::NotLocal)?;
        Ok(thread)
    }

    /// Runs an instruction of a thread that concerns nobody else, or ends the thread.
    #[inline(always)]
    pub(crate) fn local(&mut self, id: GlobalId) -> Result<(), StepFault>
        ensures { Judged self.old (Local id) result self.new }
    {
        let thread = self.may_run(id)?;
        let (place, instr) = (thread.place(), thread.instruction());
        self.run(place, &instr);
        Ok(())
    }

    /// The thread that may begin this send.
    #[inline(always)]
    pub(crate) fn may_begin(&self, name: Name) -> Result<Found<'_>, Reason>
        ensures thread { IfOk result
            (λ t. found self.now.machine self.now.world name.thread ≡ Some t) }
        ensures room { IfOk result (λ t. t.now.context.begun + 1 < 2 ^ 64) }
        ensures reason { result_err result ≡ reason self.now.machine self.now.world (Begin name) }
    {
        let thread = need(self.found(name.thread()), Reason::Undeclared)?;
        test(thread.is_ready(), Reason::NotReady(thread.state()))?;
        let begun = thread.begun();
        test(name.k() - 1 == begun, Reason::NotNext(begun))?;
        test(thread.sends(), Reason::NoSendPhase)?;
        Ok(thread)
    }

    /// Begins the next send of a thread.
    #[inline(always)]
    pub(crate) fn begin(&mut self, name: Name) -> Result<(), StepFault>
        ensures { Judged self.old (Begin name) result self.new }
    {
        let thread = self.may_begin(name)?;
        let permitted = thread.shows(self.machine);
        let (place, instr, clock) = (thread.place(), thread.instruction(), thread.clock());
        self.start(place, &instr, permitted, clock);
        Ok(())
    }

    /// The thread that may begin a receive phase without a send phase.
    #[inline(always)]
    pub(crate) fn may_wait(&self, id: GlobalId) -> Result<Found<'_>, Reason>
        ensures thread { IfOk result (λ t. found self.now.machine self.now.world id ≡ Some t) }
        ensures reason { result_err result ≡ reason self.now.machine self.now.world (Wait id) }
    {
        let thread = need(self.found(id), Reason::Undeclared)?;
        test(thread.is_ready(), Reason::NotReady(thread.state()))?;
        test(thread.receives(), Reason::NoReceivePhase)?;
        Ok(thread)
    }

    /// Begins a receive phase without a send phase.
    #[inline(always)]
    pub(crate) fn wait(&mut self, id: GlobalId) -> Result<(), StepFault>
        ensures { Judged self.old (Wait id) result self.new }
    {
        let thread = self.may_wait(id)?;
        let permitted = thread.shows(self.machine);
        let (place, instr, clock) = (thread.place(), thread.instruction(), thread.clock());
        self.start(place, &instr, permitted, clock);
        Ok(())
    }

    /// The thread that may give this order, and the order.
    pub(crate) fn may_order(
        &self,
        caller: GlobalId,
        target: GlobalId,
        what: OrderKind,
    ) -> Result<(Found<'_>, PendingOrder), Reason>
        ensures thread { IfOk result
            (λ x. found self.now.machine self.now.world caller ≡ Some x.0) }
        ensures order { IfOk result (λ x. order_of (act_of self.now.machine x.0) ≡ Some x.1) }
        ensures reason { result_err result ≡
            reason self.now.machine self.now.world (Order caller target (order_kind_of what)) }
    {
        let thread = need(self.found(caller), Reason::Undeclared)?;
        test(thread.is_ready(), Reason::NotReady(thread.state()))?;
        let order = need(thread.order(self.machine), Reason::NoOrder)?;
        test(
            target == order.target() && what == order.what(),
            Reason::OtherOrder(order),
        )?;
        Ok((thread, order))
    }

    /// Gives the order of a thread: to cancel or delete another one.
    pub(crate) fn order(
        &mut self,
        caller: GlobalId,
        target: GlobalId,
        what: OrderKind,
    ) -> Result<(), StepFault>
        ensures { Judged self.old (Order caller target (order_kind_of what)) result self.new }
    {
        let (thread, order) = self.may_order(caller, target, what)?;
        let place = thread.place();
        self.give_order(place, order);
        Ok(())
    }

    /// Whether the clock of a processor may advance to this value.
    pub(crate) fn may_tick(&self, tick: Tick) -> Result<(), Reason>
        ensures reason { result_err result ≡
            reason self.now.machine self.now.world (Ticks tick.cpu tick.clock) }
    {
        let cpu = usize::from(tick.cpu());
        let now = need(self.clocks.get(cpu).copied(), Reason::NoProcessor)?;
        test(now < tick.clock(), Reason::ClockAt(now))
    }

    /// Advances the clock of a processor.
    #[inline(always)]
    pub(crate) fn tick(&mut self, tick: Tick) -> Result<(), StepFault>
        ensures { Judged self.old (Ticks tick.cpu tick.clock) result self.new }
    {
        self.may_tick(tick)?;
        self.set_clock(tick);
        Ok(())
    }
}
