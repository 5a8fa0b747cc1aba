//! Sends and receive phases as they were fixed when they began.
ghost use Rattle.std.specs.Prelude.{◌≡◌, ◌<◌, length};
ghost use Rattle.std.specs.Option.{option_map};
ghost use Rattle.l4_model.specs.Words.{label_limit, register_count, is_id_of};
ghost use Rattle.l4_types.specs.Inner.PeriodView.{period_of, IsTimely};
ghost use Rattle.l4_thread.specs.Inner.Held.{with_words, sent_with, AreFew};
ghost use Rattle.l4_thread.specs.Inner.Partners.{turned_from};
ghost use Rattle.l4_thread.specs.declared.sends.Words.TheVariants.{InRegisters, Apart};

use l4_types::ids::{GlobalId, ThreadId};
use l4_types::message_ref::MessageRef;
use l4_types::times::Period;
use std::marker::Model;

/// A receive phase (manual: Ipc, `FromSpecifier` and the receive timeout).
#[derive(Clone, Copy, PartialEq, Eq, Debug)]
pub struct Receive {
    from: ThreadId,
    period: Period,
}

impl Model for Receive {
    ghost use Rattle.l4_model.specs.World.{Receive as ModelReceive};
    ghost use Rattle.l4_types.specs.Inner.PeriodView.{period_of, period_from, IsTimely};
    ghost use Rattle.l4_thread.specs.Inner.Spelled.{period_from_of};
    ghost use Rattle.std.proofs.Common.{ap};

    ghost Value = { ModelReceive };

    ghost view = { λ r. record { from = r.from; period = period_of r.period } };

    ghost invariant = { λ r. IsTimely r.period };

    ghost inverse = { λ r. record { from = r.from; period = period_from r.period } };

    ghost inverse_ok = { λ r h. ap (λ period. record { from = r.from; period = period })
        (period_from_of r.period h) };
}

impl Receive {
    /// A receive phase with this specifier. `period` is below 2^42 ticks, as a time can spell no
    /// longer one.
    pub fn new(from: ThreadId, period: Period) -> Receive
        requires { IsTimely period }
        ensures { result ≡ record { from = from; period = period_of period } }
    {
        Receive { from, period }
    }

    /// Whom it accepts.
    pub fn from(&self) -> ThreadId
        ensures { result ≡ self.now.from }
    {
        self.from
    }

    /// How long it may wait, below 2^42 ticks.
    pub fn period(&self) -> Period
        ensures value { period_of result ≡ self.now.period }
        ensures timely { IsTimely result }
    {
        self.period
    }

    /// This receive phase, but if its specifier is the old partner, with the new partner as its
    /// specifier.
    pub(crate) fn turned(&self, old_partner: GlobalId, new_partner: GlobalId) -> Receive
        ensures { result ≡ turned_from old_partner new_partner self.now }
    {
        if is_id_of(self.from, old_partner) {
            Receive {
                from: new_partner.id(),
                period: self.period,
            }
        } else {
            *self
        }
    }
}

/// Whether an id is that of this thread alone.
pub fn is_id_of(id: ThreadId, thread: GlobalId) -> bool
    ensures { result ≡ is_id_of id thread }
{
    match id.as_global() {
        Some(global) => global == thread,
        None => false,
    }
}

/// Where the words of a message are while its send is undecided.
#[derive(Clone, Copy, PartialEq, Eq, Debug)]
pub enum Words {
    /// In the sender's message registers 1 to this number, which is below 64 (manual: Messages and
    /// Message Registers).
    InRegisters(u8),
    /// Apart from the sender's registers.
    Apart,
}

/// A message but for its words.
#[derive(PartialEq, Eq, Debug, Drop)]
pub(crate) struct Head {
    label: u64,
    words: Words,
    propagated: bool,
    shown: GlobalId,
    actual: GlobalId,
}

impl Model for Head {
    ghost use Rattle.std.specs.Prelude.{◌<◌};
    ghost use Rattle.l4_model.specs.Words.{label_limit};
    ghost use Rattle.l4_thread.specs.Inner.Held.{Headed, AreFew};

    ghost Value = { Headed };

    ghost view = { λ h. record {
      label = h.label;
      words = h.words;
      propagated = h.propagated;
      shown = h.shown;
      actual = h.actual;
    } };

    ghost invariant = { λ h. (h.label < label_limit) × AreFew h.words };

    ghost inverse = { λ h. record {
      label = h.label;
      words = h.words;
      propagated = h.propagated;
      shown = h.shown;
      actual = h.actual;
    } };
}

impl Head {
    /// The head of a message whose words are in message registers 1 to `count` of its sender. The
    /// label is below 2^48.
    pub(crate) fn in_registers(
        label: u64,
        count: u8,
        propagated: bool,
        shown: GlobalId,
        actual: GlobalId,
    ) -> Head
        requires label { label < label_limit }
        requires count { count < register_count }
        ensures { result ≡ record {
          label = label;
          words = InRegisters count;
          propagated = propagated;
          shown = shown;
          actual = actual;
        } }
    {
        Head {
            label,
            words: Words::InRegisters(count),
            propagated,
            shown,
            actual,
        }
    }

    /// The head of a message whose words are copied.
    pub(crate) fn apart(message: &MessageRef<'_>) -> Head
        ensures { result ≡ record {
          label = message.now.label;
          words = Apart;
          propagated = message.now.propagated;
          shown = message.now.shown;
          actual = message.now.actual;
        } }
    {
        Head {
            label: message.label(),
            words: Words::Apart,
            propagated: message.propagated(),
            shown: message.shown(),
            actual: message.actual(),
        }
    }

    /// A copy.
    fn duplicate(&self) -> Head
        ensures { result ≡ self.now }
    {
        Head {
            label: self.label,
            words: self.words,
            propagated: self.propagated,
            shown: self.shown,
            actual: self.actual,
        }
    }

    /// Where the words are.
    pub(crate) fn words(&self) -> Words
        ensures value { result ≡ self.now.words }
        ensures few { AreFew result }
    {
        self.words
    }

    // Notes that the words are copied.
    fn set_apart(&mut self)
        ensures { self.new ≡ record self.old { words = Apart } }
    {
        self.words = Words::Apart;
    }

    /// The message, with these words, of which there are at most 63.
    pub(crate) fn with_words<'a>(&self, words: &'a [u64]) -> MessageRef<'a>
        requires { length words.now < register_count }
        ensures { result ≡ with_words words.now self.now }
    {
        MessageRef::new(self.label, self.propagated, words, self.shown, self.actual)
    }
}

/// A send as it was fixed when it began (manual: Ipc), but for the words of its message.
#[derive(Drop)]
pub(crate) struct Send {
    to: ThreadId,
    head: Head,
    period: Period,
    since: u64,
    receive: Option<Receive>,
}

impl Model for Send {
    ghost use Rattle.l4_thread.specs.Inner.Held.{Held};
    ghost use Rattle.l4_types.specs.Inner.PeriodView.{period_of, IsTimely};

    ghost Value = { Held };

    ghost view = { λ s. record {
      to = s.to;
      head = s.head;
      period = period_of s.period;
      since = s.since;
      receive = s.receive;
    } };

    ghost invariant = { λ s. IsTimely s.period };
}

impl Send {
    /// A send to an id. It may wait for a period from the clock at its beginning on, below 2^42
    /// ticks, as a time can spell no longer one. `receive` is the receive phase of the same Ipc.
    pub(crate) fn new(
        to: ThreadId,
        head: Head,
        period: Period,
        since: u64,
        receive: Option<Receive>,
    ) -> Send
        requires { IsTimely period }
        ensures { result ≡ record {
          to = to;
          head = head;
          period = period_of period;
          since = since;
          receive = receive;
        } }
    {
        Send {
            to,
            head,
            period,
            since,
            receive,
        }
    }

    /// A copy.
    pub(crate) fn duplicate(&self) -> Send
        ensures { result ≡ self.now }
    {
        Send {
            to: self.to,
            head: self.head.duplicate(),
            period: self.period,
            since: self.since,
            receive: self.receive,
        }
    }

    /// Where it goes.
    pub(crate) fn to(&self) -> ThreadId
        ensures { result ≡ self.now.to }
    {
        self.to
    }

    /// The clock of its processor when it began, in ticks.
    pub(crate) fn since(&self) -> u64
        ensures { result ≡ self.now.since }
    {
        self.since
    }

    /// Its message, but for the words.
    pub(crate) fn head(&self) -> &Head
        ensures { result.now ≡ self.now.head }
    {
        &self.head
    }

    /// The words of its message are apart now.
    pub(crate) fn set_apart(&mut self)
        ensures { self.new ≡ record self.old { head = record self.old.head { words = Apart } } }
    {
        self.head.set_apart();
    }

    /// How long it may wait, below 2^42 ticks.
    pub(crate) fn period(&self) -> Period
        ensures value { period_of result ≡ self.now.period }
        ensures timely { IsTimely result }
    {
        self.period
    }

    /// The receive phase of the same Ipc.
    pub(crate) fn receive(&self) -> Option<Receive>
        ensures { result ≡ self.now.receive }
    {
        self.receive
    }

    /// If the specifier of the Ipc's receive phase is the old partner, it becomes the new one.
    pub(crate) fn turn_to(&mut self, old_partner: GlobalId, new_partner: GlobalId)
        ensures { self.new ≡ record self.old {
          receive = option_map (turned_from old_partner new_partner) self.old.receive;
        } }
    {
        if let Some(receive) = self.receive {
            self.receive = Some(receive.turned(old_partner, new_partner));
        }
    }
}

/// A borrowed undecided send (manual: Ipc). The words of its message stay where they are.
#[derive(Drop)]
pub struct SendRef<'a> {
    send: &'a Send,
    words: &'a [u64],
}

impl<'a> Model for SendRef<'a> {
    ghost use Rattle.std.specs.Prelude.{◌<◌, length};
    ghost use Rattle.l4_model.specs.Words.{register_count};
    ghost use Rattle.l4_model.specs.World.{Send as ModelSend};
    ghost use Rattle.l4_thread.specs.Inner.Held.{sent_with};

    ghost Value = { ModelSend };

    ghost view = { λ s. sent_with s.words.now s.send.now };

    ghost invariant = { λ s. length s.words.now < register_count };
}

impl<'a> SendRef<'a> {
    /// A send with the words of its message, of which there are at most 63.
    pub(crate) fn new(send: &'a Send, words: &'a [u64]) -> SendRef<'a>
        requires { length words.now < register_count }
        ensures { result ≡ sent_with words.now send.now }
    {
        SendRef { send, words }
    }

    /// Where it goes.
    pub fn to(&self) -> ThreadId
        ensures { result ≡ self.now.to }
    {
        self.send.to()
    }

    /// The message.
    pub fn message(&self) -> MessageRef<'a>
        ensures { result ≡ self.now.message }
    {
        self.send.head().with_words(self.words)
    }

    /// How long it may wait, below 2^42 ticks.
    pub fn period(&self) -> Period
        ensures value { period_of result ≡ self.now.period }
        ensures timely { IsTimely result }
    {
        self.send.period()
    }

    /// The clock of its processor when it began, in ticks.
    pub fn since(&self) -> u64
        ensures { result ≡ self.now.since }
    {
        self.send.since()
    }

    /// The receive phase of the same Ipc.
    pub fn receive(&self) -> Option<Receive>
        ensures { result ≡ self.now.receive }
    {
        self.send.receive()
    }
}
