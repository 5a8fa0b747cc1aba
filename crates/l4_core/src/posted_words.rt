//! The words of the letters that an event posts.

use crate::event_buffer::MOST_LETTERS;
use l4_types::messages::MOST_WORDS;
use std::marker::Model;

// So many words the letters of an event have at most.
const MOST_POSTED_WORDS: usize = MOST_LETTERS * MOST_WORDS;

/// The words of letters, one after another. No vector, since to clear one writes over its elements.
#[derive(Drop)]
pub(crate) struct PostedWords {
    row: [u64; MOST_POSTED_WORDS],
    count: usize,
}

impl Model for PostedWords {
    ghost use Rattle.std.specs.Prelude.{◌≡◌, ◌≤◌, ℕ, List, length, take};

    ghost Value = { List ℕ };

    ghost view = { λ w. take w.count w.row };

    ghost invariant = { λ w. (w.count ≤ 126) × (length w.row ≡ 126) };
}

impl PostedWords {
    ghost use Rattle.std.specs.Prelude.{◌≡◌, ◌≤◌, ◌+◌, ◌++◌, [], length};

    /// No words.
    pub(crate) fn new() -> PostedWords
        ensures { result ≡ [] }
    {
        PostedWords {
            row: [0; MOST_POSTED_WORDS],
            count: 0,
        }
    }

    /// Drops all words.
    #[inline(always)]
    pub(crate) fn clear(&mut self)
        ensures { self.new ≡ [] }
    {
        self.count = 0;
    }

    /// Appends words. Most letters have none, or one.
    #[inline(always)]
    pub(crate) fn append(&mut self, words: &[u64])
        requires { length self.old + length words.now ≤ 126 }
        ensures { self.new ≡ self.old ++ words.now }
    {
        if words.is_empty() {
            return;
        }
        if let [word] = words {
            self.row[self.count] = *word;
            self.count += 1;
            return;
        }
        let end = self.count + words.len();
        self.row[self.count..end].copy_from_slice(words);
        self.count = end;
    }

    /// The words.
    #[inline(always)]
    pub(crate) fn as_slice(&self) -> &[u64]
        ensures { result.now ≡ self.now }
    {
        &self.row[..self.count]
    }
}
