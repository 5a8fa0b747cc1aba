//! The formats of words (manual: ThreadId, MsgTag).
ghost use Rattle.std.specs.Prelude.{◌≡◌, ◌%◌, nat_lt};
ghost use Rattle.l4_model.specs.Rules.{computed};
ghost use Rattle.l4_model.specs.Words.{word_limit};
ghost use Rattle.l4_types.specs.Inner.FormatView.{format_of};
ghost use Rattle.l4_types.specs.Inner.OperationView.{operation_of};

use crate::operations::Operation;

/// A format of words.
#[derive(Clone, Copy, PartialEq, Eq, Debug)]
pub enum Format {
    /// Of 64 bits.
    W64,
    /// Of 32 bits.
    W32,
}

// The number of words of 32 bits: each is below it.
pub(crate) const SHORT_WORDS: u64 = 1 << 32;

impl Format {
    /// Whether a number is a word of this format.
    pub fn has(&self, word: u64) -> bool
        ensures { result ≡ nat_lt word (word_limit (format_of self.now)) }
    {
        match self {
            Format::W64 => true,
            Format::W32 => word < SHORT_WORDS,
        }
    }

    /// What an operation makes of two words in this format, modulo 2^64 or 2^32.
    pub fn computed(&self, operation: Operation, a: u64, b: u64) -> u64
        ensures { result ≡
            computed (operation_of operation) a b % word_limit (format_of self.now) }
    {
        let word = operation.computed(a, b);
        match self {
            Format::W64 => word,
            Format::W32 => word % SHORT_WORDS,
        }
    }
}
