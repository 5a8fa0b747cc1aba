//! What a step does to the threads and lists of a world.
ghost use Rattle.std.specs.Prelude.{◌≡◌, ◌<◌, ◌^◌, ◌+◌, IsSomeAnd, false, length, slice_get};
ghost use Rattle.std.specs.Prelude.{slice_set};
ghost use Rattle.l4_model.specs.Rules.{received_tag};
ghost use Rattle.l4_model.specs.World.{change, is_queued, queued, unqueued};
ghost use Rattle.l4_model.specs.Effects.{runs, fails, receives, decided, orders, asked, obeyed};
ghost use Rattle.l4_core_model.specs.Local.{after_decision};
ghost use Rattle.l4_types.specs.Inner.Codes.{code_of};
ghost use Rattle.l4_types.specs.Inner.LetterView.{decision_of};
ghost use Rattle.l4_types.specs.StepView.{order_kind_of};
ghost use Rattle.l4_script.specs.Inner.Scripts.{instr_of};
ghost use Rattle.l4_thread.specs.Inner.Requests.{is_end};
ghost use Rattle.l4_audit.specs.Inner.Audited.{with_world};
ghost use Rattle.l4_audit.specs.Starting.{CanStart, starting};

use crate::world::World;
use l4_script::instructions::Instr;
use l4_thread::orders::PendingOrder;
use l4_types::errors::IpcError;
use l4_types::ids::GlobalId;
use l4_types::letters::Decision;
use l4_types::step_ref::DeliveryRef;
use l4_types::steps::{OrderKind, Tick};
use tcb_arena::Waiting;

impl World<'_> {
    /// Runs an instruction of a thread that concerns nobody else, or ends its script.
    pub(crate) fn run(&mut self, place: usize, instr: &Instr)
        requires { IsSomeAnd (slice_get self.old.world.threads place)
            (λ t. is_end (instr_of instr.now) ≡ false → t.context.place + 1 < 2 ^ 64) }
        ensures { self.new ≡ with_world self.old
            (change self.old.world place (runs (instr_of instr.now))) }
    {
        self.threads[place].run(instr);
    }

    /// Begins the first phase of a thread's Ipc, at this clock of its processor.
    pub(crate) fn start(&mut self, place: usize, instr: &Instr, permitted: bool, now: u64)
        requires { CanStart self.old place (instr_of instr.now) permitted }
        ensures { self.new ≡ with_world self.old
            (starting self.old place now (instr_of instr.now)) }
    {
        self.threads[place].ipc(instr, permitted, now);
    }

    /// Fails the Ipc of a thread.
    pub(crate) fn fail(&mut self, place: usize, error: IpcError)
        requires { place < length self.old.world.threads }
        ensures { self.new ≡ with_world self.old
            (change self.old.world place (fails (code_of error))) }
    {
        self.threads[place].fail(error);
    }

    /// Gives a thread the message of a delivery.
    #[inline(always)]
    pub(crate) fn receive(&mut self, place: usize, delivery: &DeliveryRef<'_>)
        requires { place < length self.old.world.threads }
        ensures { self.new ≡ with_world self.old
            (change self.old.world place
            (receives delivery.now.message
            (received_tag delivery.now.cross delivery.now.message))) }
    {
        let message = &delivery.message;
        self.threads[place].receive_words(
            message.words(),
            message.shown(),
            message.actual(),
            delivery.tag(),
        );
    }

    /// Ends the send of a thread, at this clock of its processor.
    pub(crate) fn end_send(&mut self, place: usize, decision: Decision, now: u64)
        requires { place < length self.old.world.threads }
        ensures { self.new ≡ with_world self.old
            (change self.old.world place (after_decision (decision_of decision) now)) }
    {
        self.threads[place].end_send(decision, now);
    }

    /// Drops the send of a deleted thread.
    pub(crate) fn drop_send(&mut self, place: usize)
        requires { place < length self.old.world.threads }
        ensures { self.new ≡ with_world self.old (change self.old.world place decided) }
    {
        self.threads[place].decide();
    }

    /// Puts a thread into the ordering phase, with this order.
    pub(crate) fn give_order(&mut self, place: usize, order: PendingOrder)
        requires { place < length self.old.world.threads }
        ensures { self.new ≡ with_world self.old (change self.old.world place (orders order)) }
    {
        self.threads[place].give_order(order);
    }

    /// Cancels a phase of a thread, or deletes the thread.
    pub(crate) fn ask(&mut self, place: usize, what: OrderKind)
        requires { place < length self.old.machine.threads }
        ensures { self.new ≡ with_world self.old
            (change self.old.world place (asked (order_kind_of what))) }
    {
        self.threads[place].ask(what);
    }

    /// Ends the order of a thread, which is done.
    pub(crate) fn obey(&mut self, place: usize)
        requires { IsSomeAnd (slice_get self.old.world.threads place)
            (λ t. t.context.place + 1 < 2 ^ 64) }
        ensures { self.new ≡ with_world self.old (change self.old.world place obeyed) }
    {
        self.threads[place].obey();
    }

    /// Appends a sender, which stands in no list, to the list of a receiver.
    pub(crate) fn queue(&mut self, receiver: usize, sender: usize)
        requires receiver { receiver < length self.old.world.threads }
        requires sender { sender < length self.old.world.threads }
        requires free { is_queued self.old.world.waiting sender ≡ false }
        ensures { self.new ≡ with_world self.old (queued self.old.world receiver sender) }
    {
        // Whom a receive phase accepts is looked up in the sender's block, so this has nothing of
        // the send.
        let waiting = Waiting {
            block: sender,
            shown: GlobalId::default(),
            local: false,
        };
        self.lists.queue_send(receiver, waiting);
    }

    /// Removes a sender from the list that it stands in, if any.
    pub(crate) fn unqueue(&mut self, sender: usize)
        requires { sender < length self.old.world.threads }
        ensures { self.new ≡ with_world self.old (unqueued self.old.world sender) }
    {
        self.lists.unqueue_send(sender);
    }

    /// Advances the clock of a processor.
    pub(crate) fn set_clock(&mut self, tick: Tick)
        requires { tick.cpu < length self.old.world.clocks }
        ensures { self.new ≡ with_world self.old (record self.old.world {
          clocks = slice_set self.old.world.clocks tick.cpu tick.clock;
        }) }
    {
        self.clocks[usize::from(tick.cpu())] = tick.clock();
    }
}
