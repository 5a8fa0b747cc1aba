//! Thread control blocks.
ghost use Rattle.std.specs.Prelude.{◌≡◌};
ghost use Rattle.std.specs.Option.{option_copied};
ghost use Rattle.l4_model.specs.World.{opening_thread, is_ready, is_sending, is_deleted};
ghost use Rattle.l4_model.specs.World.{receive_now};
ghost use Rattle.l4_model.specs.History.{report_of, state_of};
ghost use Rattle.l4_core_model.specs.Local.{armed_period, period_of_send};
ghost use Rattle.l4_core_model.specs.Mail.{is_ordering};
ghost use Rattle.l4_types.specs.Inner.PeriodView.{period_of, IsTimely};
ghost use Rattle.l4_types.specs.ReportView.{report_of_view, state_of_view};
ghost use Rattle.l4_thread.specs.Inner.Messages.{outgoing};
ghost use Rattle.l4_thread.specs.Inner.PhaseView.{since_of};

mod effects;

use crate::orders::PendingOrder;
use crate::phases::Phase;
use crate::sends::{Receive, Send, SendRef, Words};
use crate::thread::Thread;
use arrayvec::ArrayVec;
use l4_types::ids::GlobalId;
use l4_types::message_ref::MessageRef;
use l4_types::messages::MOST_WORDS;
use l4_types::reports::{State, ThreadView};
use l4_types::times::Period;
use std::marker::Model;

/// A thread control block: a thread with its phase, send, order and wishes.
#[derive(Drop)]
pub struct Tcb {
    thread: Thread,
    phase: Phase,
    send: Option<Send>,
    // The words of its send, where they are not in its registers.
    apart: ArrayVec<u64, MOST_WORDS>,
    order: Option<PendingOrder>,
    cancel_send: bool,
    cancel_receive: bool,
}

impl Model for Tcb {
    ghost use Rattle.std.specs.Option.{option_map};
    ghost use Rattle.l4_thread.specs.Inner.Held.{sent_of};
    ghost use Rattle.l4_thread.specs.Inner.Parts.{Block};
    ghost use Rattle.l4_thread.specs.Inner.PhaseView.{phase_of};

    ghost Value = { Block };

    ghost view = { λ t. record {
      id = t.thread.id;
      thread = record {
        context = t.thread.context;
        phase = phase_of t.phase;
        send = option_map (sent_of t.apart.items t.thread.context.words) t.send;
        order = t.order;
        cancel_send = t.cancel_send;
        cancel_receive = t.cancel_receive;
      };
    } };
}

impl Tcb {
    /// The block of a thread that has run nothing.
    pub fn new(id: GlobalId) -> Tcb
        ensures { result ≡ record { id = id; thread = opening_thread } }
    {
        Tcb {
            thread: Thread::new(id),
            phase: Phase::Ready,
            send: None,
            apart: ArrayVec::new(),
            order: None,
            cancel_send: false,
            cancel_receive: false,
        }
    }

    /// A copy.
    pub fn duplicate(&self) -> Tcb
        ensures { result ≡ self.now }
    {
        let mut apart = ArrayVec::new();
        apart.try_extend_from_slice(self.apart.as_slice()).unwrap();
        Tcb {
            thread: self.thread.duplicate(),
            phase: self.phase,
            send: self.send.as_ref().map(|send| send.duplicate()),
            apart,
            order: self.order,
            cancel_send: self.cancel_send,
            cancel_receive: self.cancel_receive,
        }
    }

    /// The thread's id.
    pub fn id(&self) -> GlobalId
        ensures { result ≡ self.now.id }
    {
        self.thread.id()
    }

    /// The thread's registers, its place in its script, and how many sends it began.
    pub fn thread(&self) -> &Thread
        ensures { result.now ≡ record { id = self.now.id; context = self.now.thread.context } }
    {
        &self.thread
    }

    /// Whether it can run its next instruction.
    pub fn is_ready(&self) -> bool
        ensures { result ≡ is_ready self.now.thread.phase }
    {
        matches!(self.phase, Phase::Ready)
    }

    /// Whether it is in the send phase of an Ipc.
    pub fn is_sending(&self) -> bool
        ensures { result ≡ is_sending self.now.thread.phase }
    {
        matches!(self.phase, Phase::Sending)
    }

    /// Whether it waits until its order is done.
    pub fn is_ordering(&self) -> bool
        ensures { result ≡ is_ordering self.now.thread.phase }
    {
        matches!(self.phase, Phase::Ordering)
    }

    /// Whether it was deleted.
    pub fn is_deleted(&self) -> bool
        ensures { result ≡ is_deleted self.now.thread.phase }
    {
        matches!(self.phase, Phase::Deleted)
    }

    /// The receive phase that it is in.
    pub fn receiving(&self) -> Option<&Receive>
        ensures { option_copied result ≡ receive_now self.now.thread.phase }
    {
        match &self.phase {
            Phase::Receiving(receive, _) => Some(receive),
            _ => None,
        }
    }

    /// The clock of its processor when the receive phase that it is in began, in ticks.
    pub fn receiving_since(&self) -> Option<u64>
        ensures { result ≡ since_of self.now.thread.phase }
    {
        match self.phase {
            Phase::Receiving(_, since) => Some(since),
            _ => None,
        }
    }

    /// Its undecided send.
    pub fn send(&self) -> Option<SendRef<'_>>
        ensures { result ≡ self.now.thread.send }
    {
        let send = self.send.as_ref()?;
        let words = match send.head().words() {
            Words::InRegisters(count) => self.thread.words(count),
            Words::Apart => self.apart.as_slice(),
        };
        Some(SendRef::new(send, words))
    }

    /// The message of its undecided send. Where there is none, that of a send that it would begin
    /// now without propagation.
    #[inline(always)]
    pub fn outgoing(&self) -> MessageRef<'_>
        ensures { result ≡ outgoing self.now.id self.now.thread }
    {
        match self.send() {
            Some(send) => send.message(),
            None => self.thread.ordinary_message(),
        }
    }

    /// Its order, while that is not done.
    pub fn order(&self) -> Option<PendingOrder>
        ensures { result ≡ self.now.thread.order }
    {
        self.order
    }

    /// Whether its send is to be cancelled.
    pub fn is_send_cancelled(&self) -> bool
        ensures { result ≡ self.now.thread.cancel_send }
    {
        self.cancel_send
    }

    /// Whether its receive phase is to be cancelled.
    pub fn is_receive_cancelled(&self) -> bool
        ensures { result ≡ self.now.thread.cancel_receive }
    {
        self.cancel_receive
    }

    /// What a report says of it.
    pub fn state(&self) -> State
        ensures { state_of_view result ≡ state_of self.now.thread.phase }
    {
        match self.phase {
            Phase::Ready => State::Ready,
            Phase::Sending => State::Sending,
            Phase::Receiving(_, _) => State::Receiving,
            Phase::Ordering => State::Ordering,
            Phase::Ended => State::Ended,
            Phase::Deleted => State::Deleted,
        }
    }

    /// Its report.
    pub fn view(&self) -> ThreadView
        ensures { report_of_view result ≡ report_of self.now.id self.now.thread }
    {
        ThreadView {
            id: self.id(),
            state: self.state(),
            regs: *self.thread.regs(),
        }
    }

    /// How long its phase may wait, below 2^42 ticks. Never where it has no deadline: in a send
    /// phase of timeout zero, or in no phase of an Ipc.
    pub fn waiting_period(&self) -> Period
        ensures value { period_of result ≡ armed_period self.now.thread.phase self.now.thread.send }
        ensures timely { IsTimely result }
    {
        match &self.phase {
            Phase::Receiving(receive, _) => receive.period(),
            Phase::Sending => self.send_period(),
            _ => Period::Never,
        }
    }

    // How long its send may wait, where it may wait at all.
    fn send_period(&self) -> Period
        ensures value { period_of result ≡ period_of_send self.now.thread.send }
        ensures timely { IsTimely result }
    {
        match self.send.as_ref().map(|send| send.period()) {
            None | Some(Period::Zero) => Period::Never,
            Some(period) => period,
        }
    }
}
