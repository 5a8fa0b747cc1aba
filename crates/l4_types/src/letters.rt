//! The letters that processors send each other.
ghost use Rattle.std.specs.Prelude.{◌≡◌, ◌<◌, ◌↔◌, IfSome, IsSome, length};
ghost use Rattle.l4_model.specs.Words.{register_count};
ghost use Rattle.l4_types.specs.Inner.LetterHeads.{letter_with, word_count};

use crate::ids::GlobalId;
use crate::letter_ref::LetterRef;
use crate::message_ref::MessageHead;
use crate::messages::MOST_WORDS;
use crate::owed::Owed;
use crate::steps::{Name, OrderKind};
use arrayvec::ArrayVec;
use std::marker::Model;

/// How a send is decided without a delivery.
#[derive(Clone, Copy, PartialEq, Eq, Debug)]
pub enum Refusal {
    /// Its time has passed.
    TimedOut,
    /// Nobody has the id that it goes to.
    Nobody,
    /// It was cancelled.
    Cancelled,
    /// Its thread was deleted.
    Dropped,
}

/// How a send is decided.
#[derive(Clone, Copy, PartialEq, Eq, Debug)]
pub enum Decision {
    /// Its message was delivered.
    Delivered,
    /// It was not.
    Refused(Refusal),
}

/// Why a send is withdrawn.
#[derive(Clone, Copy, PartialEq, Eq, Debug)]
pub enum Cause {
    /// Its time has passed.
    ByTimeout,
    /// It was cancelled.
    ByCancel,
    /// Its thread was deleted.
    ByDeletion,
}

/// What a letter says or asks for: all of it but its stamp and the words of its message.
#[derive(Clone, Copy, PartialEq, Eq, Debug)]
pub enum Content {
    /// A thread of the posting processor began a send to a thread of the processor that gets this
    /// letter.
    Send {
        /// The send.
        name: Name,
        /// The thread that it goes to.
        receiver: GlobalId,
        /// Its message, as it was fixed when it began, without its words.
        message: MessageHead,
        /// Whether its send timeout is zero.
        zero_timeout: bool,
    },
    /// A send is decided.
    Done {
        /// The send.
        name: Name,
        /// How it is decided.
        decision: Decision,
    },
    /// If this send still waits, it is to be refused or dropped.
    Withdraw {
        /// The send.
        name: Name,
        /// The thread that it goes to.
        receiver: GlobalId,
        /// Why it is withdrawn.
        cause: Cause,
    },
    /// The thread is deleted.
    Gone(GlobalId),
    /// An order of the caller to cancel or delete the target.
    Order {
        /// The thread that asks.
        caller: GlobalId,
        /// The thread to cancel or delete.
        target: GlobalId,
        /// What is to be done.
        what: OrderKind,
    },
    /// The order of this caller was done.
    OrderDone(GlobalId),
    /// An originator is to turn (profile 2).
    Retarget(Owed),
}

/// All of a letter but the words of its message. It is small, and they are mostly few.
#[derive(Clone, Copy, PartialEq, Eq, Debug)]
pub struct LetterHead {
    /// The stamp of the event that posted it, below 2^62.
    pub stamp: u64,
    /// What it says or asks for.
    pub content: Content,
}

impl LetterHead {
    /// How many words its message has, at most 63. None where it has no message.
    #[inline(always)]
    pub fn word_count(&self) -> usize
        ensures value { result ≡ word_count self.now.content }
        ensures fits { result < register_count }
    {
        match &self.content {
            Content::Send { message, .. } => usize::from(message.tag.untyped()),
            _ => 0,
        }
    }
}

impl Default for LetterHead {
    ghost use Rattle.std.specs.Prelude.{◌≡◌};
    ghost use Rattle.l4_model.specs.Words.{global_id};
    ghost use Rattle.l4_types.specs.declared.letters.Content.TheVariants.{OrderDone};

    ghost is_default = { λ head. head ≡ record {
      stamp = 0;
      content = OrderDone (global_id 0 1);
    } };

    /// The value of an unused slot in an array.
    fn default() -> LetterHead {
        LetterHead {
            stamp: 0,
            content: Content::OrderDone(GlobalId::default()),
        }
    }
}

/// A letter from one processor to another, with its words.
#[derive(Debug, Drop)]
pub struct Letter {
    head: LetterHead,
    words: ArrayVec<u64, MOST_WORDS>,
}

impl Model for Letter {
    ghost use Rattle.std.specs.Prelude.{◌≡◌, length};
    ghost use Rattle.l4_types.specs.Inner.LetterHeads.{letter_with, word_count};
    ghost use Rattle.l4_core_model.specs.Letters.{Letter as ModelLetter};

    ghost Value = { ModelLetter };

    ghost view = { λ l. letter_with l.words.items l.head };

    ghost invariant = { λ l. length l.words.items ≡ word_count l.head.content };
}

impl Letter {
    /// The letter of this head, whose message has these words. None where the head says that there
    /// are more words or fewer.
    pub fn new(head: LetterHead, words: &[u64]) -> Option<Letter>
        ensures some { IfSome result (λ letter. letter ≡ letter_with words.now head) }
        ensures when { IsSome result ↔ (length words.now ≡ word_count head.content) }
    {
        if words.len() != head.word_count() {
            return None;
        }
        Some(Letter::with(head, words))
    }

    // The letter of this head with its words.
    #[inline(always)]
    pub(crate) fn with(head: LetterHead, words: &[u64]) -> Letter
        requires { length words.now ≡ word_count head.content }
        ensures { result ≡ letter_with words.now head }
    {
        let count = head.word_count();
        prove!(words.len() == count);
        let mut letter = Letter {
            head,
            words: ArrayVec::new(),
        };
        letter.words.try_extend_from_slice(words).unwrap();
        letter
    }

    /// The same letter, with its words where they are.
    #[inline(always)]
    pub fn borrowed(&self) -> LetterRef<'_>
        ensures { result ≡ self.now }
    {
        LetterRef::new(&self.head, self.words.as_slice())
    }

    /// A copy of the letter.
    pub fn copy(&self) -> Letter
        ensures { result ≡ self.now }
    {
        Letter::with(self.head, self.words.as_slice())
    }

    /// The stamp of the event that posted it, below 2^62.
    pub fn stamp(&self) -> u64
        ensures { result ≡ self.now.stamp }
    {
        self.head.stamp
    }
}

impl Default for Letter {
    ghost use Rattle.std.specs.Prelude.{◌≡◌};
    ghost use Rattle.l4_model.specs.Words.{global_id};
    ghost use Rattle.l4_core_model.specs.Letters.{OrderDoneLetter};

    ghost is_default = { λ letter. letter ≡ record {
      stamp = 0;
      content = OrderDoneLetter (global_id 0 1);
    } };

    /// The value of an unused slot in an array.
    fn default() -> Letter {
        Letter::with(LetterHead::default(), &[])
    }
}
