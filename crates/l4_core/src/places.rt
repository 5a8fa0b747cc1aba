//! Sets of places of threads.
ghost use Rattle.std.specs.Prelude.{◌≡◌, ◌<◌, ℕ, false, ◌&&◌, ◌||◌, ◌==◌, not, MatchOption};
ghost use Rattle.l4_model.specs.Machine.{most_threads};
ghost use Rattle.l4_core.specs.Inner.Places.{has, IsFirst, IsLowest};

use l4_script::machine::MOST_THREADS;
use std::marker::Model;

// How many places a word has.
const WIDTH: usize = 64;

// How many words hold a place for each thread.
const WORDS: usize = MOST_THREADS / WIDTH;

/// A set of places of threads, each below 1,024. Its least place is found in constant time.
#[derive(Drop)]
pub struct Places {
    words: [u64; WORDS],
    // Bit r is set where word r isn't zero.
    filled: u64,
}

impl Model for Places {
    ghost use Rattle.std.specs.Prelude.{ℕ, List};
    ghost use Rattle.l4_core.specs.Inner.Places.{MarksFilled};

    ghost Value = { List ℕ };

    ghost view = { λ s. s.words };

    ghost invariant = { λ s. MarksFilled s.filled s.words };
}

impl Places {
    /// The empty set.
    pub fn new() -> Places
        ensures { (place : ℕ) → has result place ≡ false }
    {
        Places {
            words: [0; WORDS],
            filled: 0,
        }
    }

    /// Puts a place into the set, unless it is in.
    pub fn insert(&mut self, place: usize)
        requires { place < most_threads }
        ensures { (other : ℕ) → has self.new other ≡ (has self.old other || other == place) }
    {
        let row = place / WIDTH;
        self.words[row] |= 1 << (place % WIDTH);
        self.filled |= 1 << row;
    }

    /// A copy of the set.
    pub fn copy(&self) -> Places
        ensures { result ≡ self.now }
    {
        Places {
            words: self.words,
            filled: self.filled,
        }
    }

    /// Takes a place out of the set, if it is in.
    pub fn remove(&mut self, place: usize)
        requires { place < most_threads }
        ensures { (other : ℕ) → has self.new other ≡ (has self.old other && not (other == place)) }
    {
        let row = place / WIDTH;
        self.words[row] &= !(1 << (place % WIDTH));
        if self.words[row] == 0 {
            self.filled &= !(1 << row);
        }
    }

    /// Whether a place is in. Most sets that are asked are empty, which takes no look at a word.
    pub fn contains(&self, place: usize) -> bool
        requires { place < most_threads }
        ensures { result ≡ has self.now place }
    {
        if self.filled == 0 {
            return false;
        }
        self.words[place / WIDTH] >> (place % WIDTH) & 1 == 1
    }

    /// The least place.
    pub fn first(&self) -> Option<usize>
        ensures { MatchOption result ((place : ℕ) → has self.now place ≡ false) (IsFirst self.now) }
    {
        if self.filled == 0 {
            return None;
        }
        let row = lowest(self.filled);
        Some(row * WIDTH + lowest(self.words[row]))
    }
}

// The place of the lowest bit of a word.
fn lowest(word: u64) -> usize
    requires { 0 < word }
    ensures { IsLowest word result }
{
    word.trailing_zeros() as usize
}
