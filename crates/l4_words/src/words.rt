//! The words of a line.
ghost use Rattle.std.specs.Prelude.{◌≡◌, ◌≢◌, ◌≤◌, true, nat_lt, length, take, IfSome, ◌∷◌, []};
ghost use Rattle.std.specs.Prelude.{None, Some, IsFalse, IsTrue, MatchOption};
ghost use Rattle.std.specs.List.{list_all};
ghost use Rattle.std.specs.Option.{option_copied, option_map};
ghost use Rattle.l4_words.specs.Names.{name_of};
ghost use Rattle.l4_words.specs.Threads.{thread_of};
ghost use Rattle.l4_words.specs.Words.{Finds, words_in, one, two, three, four, five};
ghost use Rattle.l4_words.specs.Words.{first_hexadecimal, first_as, words_behind, words_left};

use crate::lines::split_once;
use crate::names::{name, name_in_front};
use crate::numbers::hexadecimal_in_front;
use crate::threads::{thread, thread_in_front};
use l4_types::ids::GlobalId;
use l4_types::steps::Name;
use std::marker::Model;

/// The words of a line that are still to be read.
#[derive(Drop)]
pub struct Words<'a> {
    // What follows the words that were read and the space after the last of them.
    rest: Option<&'a [u8]>,
}

impl<'a> Model for Words<'a> {
    ghost use Rattle.std.specs.Prelude.{List, ℕ};
    ghost use Rattle.std.specs.Option.{option_copied};
    ghost use Rattle.l4_words.specs.Words.{words_left};

    ghost Value = { List (List ℕ) };

    ghost view = { λ w. words_left (option_copied w.rest) };
}

type ThreeWords<'a> = (&'a [u8], &'a [u8], &'a [u8]);

type FourWords<'a> = (&'a [u8], &'a [u8], &'a [u8], &'a [u8]);

type FiveWords<'a> = (&'a [u8], &'a [u8], &'a [u8], &'a [u8], &'a [u8]);

impl<'a> Words<'a> {
    /// The words of a line.
    pub fn of(line: &'a [u8]) -> Words<'a>
        ensures { result ≡ words_in line.now }
    {
        Words { rest: Some(line) }
    }

    /// The words behind the first one of a line, where it is this one and others follow it.
    #[inline(always)]
    pub fn behind(first: &[u8], line: &'a [u8]) -> Option<Words<'a>>
        requires { list_all (nat_lt 32) first.now ≡ true }
        ensures { Finds (λ others. others) result (words_behind first.now (words_in line.now)) }
    {
        let end = first.len();
        if end >= line.len() {
            return None;
        }
        if line[end] != b' ' {
            return None;
        }
        if &line[..end] == first {
            Some(Words::of(&line[end + 1..]))
        } else {
            None
        }
    }

    /// The next word, or None where no word is left.
    pub fn next(&mut self) -> Option<&'a [u8]>
        ensures { MatchOption result
            ((self.old ≡ []) × (self.new ≡ []))
            (λ word. self.old ≡ word.now ∷ self.new) }
    {
        let line = self.rest?;
        match split_once(b' ', line) {
            Some((word, rest)) => {
                self.rest = Some(rest);
                Some(word)
            }
            None => {
                self.rest = None;
                Some(line)
            }
        }
    }

    /// Whether no word is left.
    #[tactic(auto, using(crate::proofs::FirstWord::some_word))]
    pub fn is_done(&self) -> bool
        ensures done { IsTrue result → self.now ≡ [] }
        ensures more { IsFalse result → self.now ≢ [] }
    {
        match self.rest {
            Some(_) => false,
            None => true,
        }
    }

    /// The next word, as a hexadecimal number. None if no word is left or the next one is no
    /// hexadecimal number; no clause says which words are left then.
    #[inline(always)]
    pub fn next_hexadecimal(&mut self) -> Option<u64>
        ensures { MatchOption result (first_hexadecimal self.old ≡ None)
            (λ number. first_hexadecimal self.old ≡ Some (number, self.new)) }
    {
        let (number, rest) = split_hexadecimal(self.rest?);
        self.rest = rest;
        number
    }

    /// The next word, as a thread. None if no word is left or the next one is no thread; no clause
    /// says which words are left then.
    #[inline(always)]
    pub fn next_thread(&mut self) -> Option<GlobalId>
        ensures { MatchOption result (first_as thread_of self.old ≡ None)
            (λ thread. first_as thread_of self.old ≡ Some (thread, self.new)) }
    {
        let (thread, rest) = split_thread(self.rest?);
        self.rest = rest;
        thread
    }

    /// The next word, as the name of a send. None if no word is left or the next one is no name; no
    /// clause says which words are left then.
    #[inline(always)]
    pub fn next_name(&mut self) -> Option<Name>
        ensures { MatchOption result (first_as name_of self.old ≡ None)
            (λ name. first_as name_of self.old ≡ Some (name, self.new)) }
    {
        let (name, rest) = split_name(self.rest?);
        self.rest = rest;
        name
    }

    /// The one word that is left. None where there are more or fewer.
    pub fn one(mut self) -> Option<&'a [u8]>
        ensures { Finds (λ word. word.now) result (one self.entry) }
    {
        match (self.next(), self.next()) {
            (Some(word), None) => Some(word),
            _ => None,
        }
    }

    /// The two words that are left. None where there are more or fewer.
    pub fn two(mut self) -> Option<(&'a [u8], &'a [u8])>
        ensures { Finds (λ words. (words.0.now, words.1.now)) result (two self.entry) }
    {
        match (self.next(), self.next(), self.next()) {
            (Some(first), Some(second), None) => Some((first, second)),
            _ => None,
        }
    }

    /// The three words that are left. None where there are more or fewer.
    pub fn three(mut self) -> Option<ThreeWords<'a>>
        ensures { Finds (λ words. (words.0.now, words.1.now, words.2.now)) result
            (three self.entry) }
    {
        match (self.next(), self.next(), self.next(), self.next()) {
            (Some(first), Some(second), Some(third), None) => Some((first, second, third)),
            _ => None,
        }
    }

    /// The four words that are left. None where there are more or fewer.
    pub fn four(mut self) -> Option<FourWords<'a>>
        ensures { Finds (λ words. (words.0.now, words.1.now, words.2.now, words.3.now)) result
            (four self.entry) }
    {
        match (
            self.next(),
            self.next(),
            self.next(),
            self.next(),
            self.next(),
        ) {
            (Some(first), Some(second), Some(third), Some(fourth), None) => Some((
                first, second, third, fourth,
            )),
            _ => None,
        }
    }

    /// The five words that are left. None where there are more or fewer.
    pub fn five(mut self) -> Option<FiveWords<'a>>
        ensures { Finds (λ words. (words.0.now, words.1.now, words.2.now, words.3.now, words.4.now))
            result (five self.entry) }
    {
        match (
            self.next(),
            self.next(),
            self.next(),
            self.next(),
            self.next(),
            self.next(),
        ) {
            (Some(first), Some(second), Some(third), Some(fourth), Some(fifth), None) => Some((
                first, second, third, fourth, fifth,
            )),
            _ => None,
        }
    }
}

// What follows the space after the first word of a line, if this word ends here.
#[inline(always)]
fn left_behind(line: &[u8], end: usize) -> Option<Option<&[u8]>>
    requires { end ≤ length line.now }
    ensures { IfSome result (λ rest. list_all (nat_lt 32) (take end line.now) ≡ true →
        words_in line.now ≡ take end line.now ∷ words_left (option_copied rest)) }
{
    if end == line.len() {
        return Some(None);
    }
    if line[end] != b' ' {
        return None;
    }
    Some(Some(&line[end + 1..]))
}

// The first word as a thread, where it spells one, and what follows the space after it.
#[inline(always)]
fn split_thread(line: &[u8]) -> (Option<GlobalId>, Option<&[u8]>)
    ensures { first_as thread_of (words_in line.now) ≡
        option_map (λ thread. (thread, words_left (option_copied result.1))) result.0 }
{
    if let Some((thread, end)) = thread_in_front(line)
        && let Some(rest) = left_behind(line, end)
    {
        return (Some(thread), rest);
    }
    match split_once(b' ', line) {
        Some((word, rest)) => (thread(word), Some(rest)),
        None => (thread(line), None),
    }
}

// The first word as the name of a send, where it spells one, and what follows the space after it.
#[inline(always)]
fn split_name(line: &[u8]) -> (Option<Name>, Option<&[u8]>)
    ensures { first_as name_of (words_in line.now) ≡
        option_map (λ name. (name, words_left (option_copied result.1))) result.0 }
{
    if let Some((name, end)) = name_in_front(line)
        && let Some(rest) = left_behind(line, end)
    {
        return (Some(name), rest);
    }
    match split_once(b' ', line) {
        Some((word, rest)) => (name(word), Some(rest)),
        None => (name(line), None),
    }
}

// The first word as a hexadecimal number, where it spells one, and what follows the space after it.
#[inline(always)]
fn split_hexadecimal(line: &[u8]) -> (Option<u64>, Option<&[u8]>)
    ensures { first_hexadecimal (words_in line.now) ≡
        option_map (λ number. (number, words_left (option_copied result.1))) result.0 }
{
    let (number, end) = hexadecimal_in_front(line);
    if end == line.len() {
        return (number, None);
    }
    if line[end] != b' ' {
        return (None, None);
    }
    (number, Some(&line[end + 1..]))
}
