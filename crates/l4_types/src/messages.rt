//! Messages (manual: Messages and Message Registers).
ghost use Rattle.std.specs.Prelude.{◌≡◌, ◌<◌, ◌↔◌, IsSome, IfSome, length, false};
ghost use Rattle.l4_model.specs.Words.{label_limit, register_count};
ghost use Rattle.l4_types.specs.Inner.Flags.{flags_of};

use crate::ids::GlobalId;
use crate::tags::{LABELS, MsgTag};
use arrayvec::ArrayVec;
use std::marker::Model;

/// A message has at most this many untyped words, since message register 0 has its tag.
pub const MOST_WORDS: usize = 63;

/// A message as it was fixed when its send began.
#[derive(PartialEq, Eq, Debug, Drop)]
pub struct Message {
    label: u64,
    propagated: bool,
    words: ArrayVec<u64, MOST_WORDS>,
    shown: GlobalId,
    actual: GlobalId,
}

impl Model for Message {
    ghost use Rattle.std.specs.Prelude.{◌<◌};
    ghost use Rattle.l4_model.specs.Words.{label_limit};
    ghost use Rattle.l4_model.specs.World.{Message as ModelMessage};

    ghost Value = { ModelMessage };

    ghost view = { λ m. record {
      label = m.label;
      words = m.words.items;
      propagated = m.propagated;
      shown = m.shown;
      actual = m.actual;
    } };

    ghost invariant = { λ m. m.label < label_limit };

    ghost inverse = { λ m. record {
      label = m.label;
      propagated = m.propagated;
      words = record { items = m.words };
      shown = m.shown;
      actual = m.actual;
    } };
}

impl Message {
    /// A message of this label and these words: the label is below 2^48, and there are at most 63
    /// words. `shown` is the sender that the receiver sees, `actual` the thread that sends. None
    /// where the label is 2^48 or above.
    pub fn new(
        label: u64,
        propagated: bool,
        words: ArrayVec<u64, MOST_WORDS>,
        shown: GlobalId,
        actual: GlobalId,
    ) -> Option<Message>
        ensures some { IfSome result (λ m. m ≡ record {
          label = label;
          words = words.items;
          propagated = propagated;
          shown = shown;
          actual = actual;
        }) }
        ensures when { IsSome result ↔ (label < label_limit) }
    {
        if label >= LABELS {
            return None;
        }
        Some(Message {
            label,
            propagated,
            words,
            shown,
            actual,
        })
    }

    // A message with a copy of these words, made in place: a message is large, so it is costly to move.
    #[inline(always)]
    pub(crate) fn copied(
        label: u64,
        propagated: bool,
        words: &[u64],
        shown: GlobalId,
        actual: GlobalId,
    ) -> Message
        requires label { label < label_limit }
        requires words { length words.now < register_count }
        ensures { result ≡ record {
          label = label;
          words = words.now;
          propagated = propagated;
          shown = shown;
          actual = actual;
        } }
    {
        let mut message = Message {
            label,
            propagated,
            words: ArrayVec::new(),
            shown,
            actual,
        };
        message.words.try_extend_from_slice(words).unwrap();
        message
    }

    /// The label, below 2^48.
    pub fn label(&self) -> u64
        ensures value { result ≡ self.now.label }
        ensures fits { result < label_limit }
    {
        self.label
    }

    /// Whether the message is propagated.
    pub fn propagated(&self) -> bool
        ensures { result ≡ self.now.propagated }
    {
        self.propagated
    }

    /// The untyped words, at most 63.
    pub fn words(&self) -> &[u64]
        ensures value { result.now ≡ self.now.words }
        ensures fits { length result.now < register_count }
    {
        self.words.as_slice()
    }

    /// The sender that the receiver is shown: with propagation the originator, else the actual
    /// sender.
    pub fn shown(&self) -> GlobalId
        ensures { result ≡ self.now.shown }
    {
        self.shown
    }

    /// The thread that sends.
    pub fn actual(&self) -> GlobalId
        ensures { result ≡ self.now.actual }
    {
        self.actual
    }

    /// The tag of the message: its label, its number of words, and whether it is propagated.
    pub fn tag(&self) -> MsgTag
        ensures { result ≡ record {
          label = self.now.label;
          flags = flags_of false self.now.propagated;
          untyped = length self.now.words;
        } }
    {
        MsgTag::of(self.label, false, self.propagated, self.words.len() as u8)
    }

    /// A copy of the message.
    pub fn copy(&self) -> Message
        ensures { result ≡ self.now }
    {
        Message::copied(
            self.label,
            self.propagated,
            self.words(),
            self.shown,
            self.actual,
        )
    }
}
