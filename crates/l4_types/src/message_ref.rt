//! A borrowed message.
ghost use Rattle.std.specs.Prelude.{◌≡◌, ◌<◌, length, false};
ghost use Rattle.l4_types.specs.Inner.LetterHeads.{message_with};
ghost use Rattle.l4_model.specs.Words.{label_limit, register_count};
ghost use Rattle.l4_types.specs.Inner.Flags.{flags_of};

use crate::ids::GlobalId;
use crate::messages::Message;
use crate::tags::MsgTag;
use std::marker::Model;

/// A message whose words stay where they are: in a message, in a history, or in message registers 1
/// to u of its sender (manual: Messages and Message Registers).
#[derive(Drop)]
pub struct MessageRef<'a> {
    label: u64,
    propagated: bool,
    words: &'a [u64],
    shown: GlobalId,
    actual: GlobalId,
}

impl<'a> Model for MessageRef<'a> {
    ghost use Rattle.std.specs.Prelude.{◌<◌, length};
    ghost use Rattle.l4_model.specs.Words.{label_limit, register_count};
    ghost use Rattle.l4_model.specs.World.{Message as ModelMessage};

    ghost Value = { ModelMessage };

    ghost view = { λ m. record {
      label = m.label;
      words = m.words.now;
      propagated = m.propagated;
      shown = m.shown;
      actual = m.actual;
    } };

    ghost invariant = { λ m. (m.label < label_limit) × (length m.words.now < register_count) };
}

/// All of a message but its words.
#[derive(Clone, Copy, PartialEq, Eq, Debug, Drop)]
pub struct MessageHead {
    /// The label, the number of words, and whether the message is propagated.
    pub tag: MsgTag,
    /// The sender that the receiver is shown.
    pub shown: GlobalId,
    /// The thread that sends.
    pub actual: GlobalId,
}

impl MessageHead {
    /// The message with these words.
    #[inline(always)]
    pub fn with<'a>(&self, words: &'a [u64]) -> MessageRef<'a>
        requires { length words.now ≡ self.now.tag.untyped }
        ensures { result ≡ message_with words.now self.now }
    {
        let untyped = self.tag.untyped();
        prove!(words.len() == usize::from(untyped));
        MessageRef {
            label: self.tag.label(),
            propagated: self.tag.propagate(),
            words,
            shown: self.shown,
            actual: self.actual,
        }
    }
}

impl<'a> From<&'a Message> for MessageRef<'a> {
    ghost from_gives = { λ message result. result ≡ message.now };

    fn from(message: &'a Message) -> MessageRef<'a> {
        MessageRef {
            label: message.label(),
            propagated: message.propagated(),
            words: message.words(),
            shown: message.shown(),
            actual: message.actual(),
        }
    }
}

impl<'a> MessageRef<'a> {
    /// A message of this label and these words: the label is below 2^48, and there are at most 63
    /// words. `shown` is the sender that the receiver sees, `actual` the thread that sends.
    pub fn new(
        label: u64,
        propagated: bool,
        words: &'a [u64],
        shown: GlobalId,
        actual: GlobalId,
    ) -> MessageRef<'a>
        requires label { label < label_limit }
        requires words { length words.now < register_count }
        ensures { result ≡ record {
          label = label;
          words = words.now;
          propagated = propagated;
          shown = shown;
          actual = actual;
        } }
    {
        MessageRef {
            label,
            propagated,
            words,
            shown,
            actual,
        }
    }

    /// The label, below 2^48.
    pub fn label(&self) -> u64
        ensures value { result ≡ self.now.label }
        ensures fits { result < label_limit }
    {
        self.label
    }

    /// Whether the message is propagated.
    pub fn propagated(&self) -> bool
        ensures { result ≡ self.now.propagated }
    {
        self.propagated
    }

    /// The untyped words, at most 63.
    pub fn words(&self) -> &'a [u64]
        ensures value { result.now ≡ self.now.words }
        ensures fits { length result.now < register_count }
    {
        self.words
    }

    /// The sender that the receiver is shown: with propagation the originator, else the actual
    /// sender.
    pub fn shown(&self) -> GlobalId
        ensures { result ≡ self.now.shown }
    {
        self.shown
    }

    /// The thread that sends.
    pub fn actual(&self) -> GlobalId
        ensures { result ≡ self.now.actual }
    {
        self.actual
    }

    /// The tag of the message: its label, its number of words, and whether it is propagated.
    pub fn tag(&self) -> MsgTag
        ensures { result ≡ record {
          label = self.now.label;
          flags = flags_of false self.now.propagated;
          untyped = length self.now.words;
        } }
    {
        MsgTag::new(self.label, self.words.len() as u8, self.propagated).unwrap()
    }

    /// All of the message but its words.
    #[inline(always)]
    pub fn head(&self) -> MessageHead
        ensures value { message_with self.now.words result ≡ self.now }
        ensures count { result.tag.untyped ≡ length self.now.words }
    {
        MessageHead {
            tag: self.tag(),
            shown: self.shown,
            actual: self.actual,
        }
    }

    /// The message with a copy of the words.
    #[inline(always)]
    pub fn to_message(&self) -> Message
        ensures { result ≡ self.now }
    {
        Message::copied(
            self.label,
            self.propagated,
            self.words,
            self.shown,
            self.actual,
        )
    }
}
