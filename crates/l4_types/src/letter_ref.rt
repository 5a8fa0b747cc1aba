//! Letters whose words lie elsewhere.
ghost use Rattle.std.specs.Prelude.{◌≡◌, ◌<◌, length};
ghost use Rattle.l4_model.specs.Words.{register_count};
ghost use Rattle.l4_types.specs.Inner.LetterHeads.{letter_with, word_count};

use crate::letters::{Letter, LetterHead};
use std::marker::Model;

/// A letter whose words stay where they are: in a letter, or in a row of the words of several.
#[derive(Debug, Drop)]
pub struct LetterRef<'a> {
    head: &'a LetterHead,
    words: &'a [u64],
}

impl<'a> Model for LetterRef<'a> {
    ghost use Rattle.std.specs.Prelude.{◌≡◌, length};
    ghost use Rattle.l4_types.specs.Inner.LetterHeads.{letter_with, word_count};
    ghost use Rattle.l4_core_model.specs.Letters.{Letter as ModelLetter};

    ghost Value = { ModelLetter };

    ghost view = { λ l. letter_with l.words.now l.head.now };

    ghost invariant = { λ l. length l.words.now ≡ word_count l.head.now.content };
}

impl<'a> LetterRef<'a> {
    /// The letter of this head, whose message has these words.
    #[inline(always)]
    pub fn new(head: &'a LetterHead, words: &'a [u64]) -> LetterRef<'a>
        requires { length words.now ≡ word_count head.now.content }
        ensures { result ≡ letter_with words.now head.now }
    {
        LetterRef { head, words }
    }

    /// All of it but the words of its message, and these words, at most 63.
    #[inline(always)]
    pub fn parts(&self) -> (&'a LetterHead, &'a [u64])
        ensures value { letter_with result.1.now result.0.now ≡ self.now }
        ensures count { length result.1.now ≡ word_count result.0.now.content }
        ensures few { length result.1.now < register_count }
    {
        let count = self.head.word_count();
        prove!(self.words.len() == count);
        (self.head, self.words)
    }

    /// The stamp of the event that posted it, below 2^62.
    #[inline(always)]
    pub fn stamp(&self) -> u64
        ensures { result ≡ self.now.stamp }
    {
        self.head.stamp
    }

    /// The letter with a copy of the words.
    pub fn to_letter(&self) -> Letter
        ensures { result ≡ self.now }
    {
        Letter::with(*self.head, self.words)
    }
}
