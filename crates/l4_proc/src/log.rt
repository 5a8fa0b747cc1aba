//! The log of one processor.
ghost use Rattle.std.specs.Prelude.{◌≡◌, ◌<◌, ◌≤◌, ◌+◌, ◌-◌, ◌++◌, ◌^◌, [], ◌↔◌, false, IfNone};
ghost use Rattle.std.specs.Prelude.{IfSome, OnOk, OnErr, IsTrue, Some, drop, length, slice_get};
ghost use Rattle.std.specs.Prelude.{take};
ghost use Rattle.l4_proc.specs.Ends.{start_of};

use crate::choice::{Choice, choice_of};
use crate::end_rows::{End, Ends};
use l4_core::event_buffer::EventBuffer;
use l4_history::history::History;
use l4_history::steps::Steps;
use l4_types::errors::NoMemory;
use l4_types::letters::Letter;
use std::alloc::Global;

/// The events of one processor in order.
#[derive(Drop)]
pub struct Log {
    cpu: u8,
    // The steps of all events, and after them those of the current event.
    pub(crate) buffer: EventBuffer<History>,
    ends: Ends,
    // How many of the events were ticks.
    ticks: usize,
    ghost few: { ticks ≤ length ends.items },
}

/// A borrowed event.
#[derive(Drop)]
pub struct EventRef<'a> {
    /// The processor whose event it is.
    pub cpu: u8,
    /// The stamp of the event, below 2^62.
    pub stamp: u64,
    /// Its steps in order.
    pub steps: Steps<'a>,
}

impl Log {
    ghost use Rattle.l4_proc.specs.Logs.{all_steps, event_of, events, actions, HasBegun};
    ghost use Rattle.l4_proc.specs.Logs.{HasEnded, HasLetters, IsClosed, IsSameLog};
    ghost use Rattle.std.specs.Option.{option_map, option_to_list};
    ghost use Rattle.l4_core_model.specs.Runs.{told};
    ghost use Rattle.l4_proc.specs.Choices.{action_of};

    /// The log of a processor that has done nothing. It takes no memory.
    pub fn new(alloc: Global, cpu: u8) -> Log
        ensures cpu { result.cpu ≡ cpu }
        ensures ends { result.ends.items ≡ [] }
        ensures steps { all_steps result.buffer ≡ [] }
        ensures ticks { result.ticks ≡ 0 }
    {
        Log {
            cpu,
            buffer: EventBuffer::new(History::new(alloc)),
            ends: Ends::new(alloc),
            ticks: 0,
        }
    }

    /// How many events it has.
    #[tactic(auto, using(crate::proofs::Ends::as_many))]
    pub fn len(&self) -> usize
        ensures { result ≡ length (events self.now) }
    {
        self.ends.len()
    }

    /// Whether it has no event.
    pub fn is_empty(&self) -> bool
        ensures { IsTrue result ↔ (events self.now ≡ []) }
    {
        self.len() == 0
    }

    /// How many of its events were turns. Ticks are none.
    pub fn turns(&self) -> u64
        ensures value { result ≡ length self.now.ends.items - self.now.ticks }
        ensures fits { result < 2 ^ 63 }
    {
        (self.ends.len() - self.ticks) as u64
    }

    /// The i-th event, counted from 0.
    #[tactic(auto, using(crate::proofs::Ends::as_many))]
    pub fn event(&self, i: usize) -> EventRef<'_>
        requires within { i < length (events self.now) }
        requires closed { IsClosed self.now }
        ensures { slice_get (events self.now) i ≡ Some (event_of result) }
    {
        let end = self.ends.get(i);
        let start = start(&self.ends, i);
        EventRef {
            cpu: self.cpu,
            stamp: end.stamp,
            steps: self.buffer.sink().steps_between(start, end.place),
        }
    }

    /// The stamp of the i-th event, counted from 0, below 2^62.
    #[tactic(auto, using(crate::proofs::Ends::as_many))]
    pub fn stamp(&self, i: usize) -> u64
        requires { i < length (events self.now) }
        ensures { option_map (λ e. e.stamp) (slice_get (events self.now) i) ≡ Some result }
    {
        self.ends.get(i).stamp
    }

    /// What the processor did in the i-th event, counted from 0.
    #[tactic(auto, using(crate::proofs::Ends::as_many))]
    pub fn choice(&self, i: usize) -> Choice
        requires { i < length (events self.now) }
        ensures { slice_get (actions self.now) i ≡ Some (action_of self.now.cpu result) }
    {
        choice_of(self.ends.get(i).choice)
    }

    /// Where the steps of the i-th event, counted from 0, stand in the history: the place of the
    /// first, and the one after the last.
    #[tactic(auto, using(crate::proofs::Ends::as_many))]
    pub fn places(&self, i: usize) -> (usize, usize)
        requires within { i < length (events self.now) }
        requires closed { IsClosed self.now }
        ensures steps { IfSome (slice_get (events self.now) i)
            (λ e. e.steps ≡ drop result.0 (take result.1 (told (events self.now)))) }
        ensures within { result.1 ≤ length (told (events self.now)) }
    {
        (start(&self.ends, i), self.ends.get(i).place)
    }

    /// The steps of all events, in order.
    pub fn history(&self) -> &History
        requires { IsClosed self.now }
        ensures { result.now.steps ≡ told (events self.now) }
    {
        self.buffer.sink()
    }

    /// The steps of all events, in order. Nothing is copied.
    pub fn into_history(self) -> History
        requires { IsClosed self }
        ensures { result.steps ≡ told (events self) }
    {
        self.buffer.into_sink()
    }

    // Makes room for an event, and begins it.
    #[inline(always)]
    pub(crate) fn begin(&mut self) -> Result<(), NoMemory>
        ensures ok { OnOk result (HasBegun self.old self.new) }
        ensures err { OnErr result (IsSameLog self.old self.new) }
    {
        self.ends.reserve()?;
        self.buffer.begin()
    }

    // Ends the current event, a turn of which this is the number.
    pub(crate) fn end_turn(&mut self, stamp: u64, choice: u64)
        requires { 0 < self.old.ends.room }
        ensures { HasEnded self.old self.new stamp choice self.old.ticks }
    {
        let place = self.buffer.sink().len();
        self.ends.push(End {
            stamp,
            place,
            choice,
        });
    }

    // Ends the current event, a tick of which this is the number.
    pub(crate) fn end_tick(&mut self, stamp: u64, choice: u64)
        requires { 0 < self.old.ends.room }
        ensures { HasEnded self.old self.new stamp choice (self.old.ticks + 1) }
    {
        self.ends.facts();
        self.end_turn(stamp, choice);
        self.ticks += 1;
    }

    // Whether the current event has letters left.
    pub(crate) fn has_letters(&self) -> bool
        ensures { (result ≡ false) ↔ (self.now.buffer.letters ≡ []) }
    {
        self.buffer.has_letters()
    }

    // Takes out the first letter that is left of the current event, with a copy of its words.
    pub(crate) fn take_letter(&mut self) -> Option<(u8, Letter)>
        ensures letters { self.old.buffer.letters ≡
            option_to_list result ++ self.new.buffer.letters }
        ensures none { IfNone result (self.new.buffer.letters ≡ []) }
        ensures same { HasLetters self.old self.new }
    {
        self.buffer.take_letter()
    }
}

// The place where the i-th of the events that have these ends begins.
fn start(ends: &Ends, i: usize) -> usize
    requires { i ≤ length ends.now.items }
    ensures { result ≡ start_of 0 ends.now.items i }
{
    if i == 0 { 0 } else { ends.get(i - 1).place }
}
