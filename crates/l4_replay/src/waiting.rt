//! The sends of a run that are undecided.
ghost use Rattle.std.specs.Prelude.{◌≡◌, ◌<◌, ◌≤◌, ◌+◌, ◌++◌, [], IfOk, IfSome, OnOk, drop, false};
ghost use Rattle.std.specs.Prelude.{filter_map, length, slice_get, take};
ghost use Rattle.std.specs.List.{AllByRecursion};
ghost use Rattle.l4_replay.specs.Inner.Homes.{sent_to, IsNotBelow};
ghost use Rattle.l4_replay.specs.Inner.Waiting.{count_undecided, sought, AreBegunOnce, IsSearch};

use crate::homes::{LastSend, OwnerView};
use l4_history::history::History;
use l4_script::machine::Machine;
use l4_types::errors::NoMemory;
use l4_types::ids::ThreadId;
use l4_types::steps::Name;
use std::alloc::Global;

/// A search for the begun sends that are undecided, as the processors of their senders have them.
#[derive(Clone, Copy)]
pub struct Search<'a> {
    machine: &'a Machine,
    at_home: &'a OwnerView,
    // No undecided send has a lower number. Most sends of a long history have one, and need no
    // look-up.
    least: u64,
    // How many sends are undecided.
    count: usize,
}

impl<'a> Search<'a> {
    /// A search for what these threads have begun.
    pub fn new(machine: &'a Machine, at_home: &'a OwnerView) -> Search<'a>
        ensures search { IsSearch result }
        ensures machine { result.machine.now ≡ machine.now }
        ensures threads { result.at_home.now ≡ at_home.now }
    {
        Search {
            machine,
            at_home,
            least: least_undecided(at_home.sends.as_slice()),
            count: count_undecided(at_home.sends.as_slice()),
        }
    }

    /// The undecided sends that a history begins, in order of beginning, with their destinations.
    pub fn of_history(
        &self,
        alloc: Global,
        history: &History,
    ) -> Result<Vec<(Name, ThreadId)>, NoMemory>
        requires search { IsSearch self.now }
        requires once { AreBegunOnce history.now.steps }
        ensures { IfOk result (λ sends.
            sends.items ≡ filter_map (sought self.now) history.now.steps) }
    {
        let mut sends = Vec::new(alloc);
        let start = self.start(history);
        self.push_between(history, start, history.len(), &mut sends)?;
        Ok(sends)
    }

    // The first step that may begin one of them. Each is begun once, so the search from the end
    // stops when all are found.
    fn start(&self, history: &History) -> usize
        requires search { IsSearch self.now }
        requires once { AreBegunOnce history.now.steps }
        ensures within { result ≤ length history.now.steps }
        ensures none { filter_map (sought self.now) (take result history.now.steps) ≡ [] }
    {
        let mut start = history.len();
        let mut missing = self.count;
        while start > 0 && missing > 0 {
            start -= 1;
            if self.send_at(history, start).is_some() {
                missing -= 1;
            }
        }
        start
    }

    /// How many sends are undecided.
    pub fn count(&self) -> usize
        requires { IsSearch self.now }
        ensures { result ≡ count_undecided self.now.at_home.now.sends.items }
    {
        self.count
    }

    /// How many of `missing` sends are still missing after a search of the steps from `start` to
    /// `end`.
    pub fn missing_after(
        &self,
        history: &History,
        start: usize,
        end: usize,
        missing: usize,
    ) -> usize
        requires search { IsSearch self.now }
        requires within { end ≤ length history.now.steps }
        ensures { missing ≤ result + length
            (filter_map (sought self.now) (drop start (take end history.now.steps))) }
    {
        let mut missing = missing;
        for place in start..end {
            if self.send_at(history, place).is_some() {
                missing = missing.saturating_sub(1);
            }
        }
        missing
    }

    /// Appends the undecided sends that the steps from `start` to `end` begin.
    pub fn push_between(
        &self,
        history: &History,
        start: usize,
        end: usize,
        sends: &mut Vec<(Name, ThreadId)>,
    ) -> Result<(), NoMemory>
        requires search { IsSearch self.now }
        requires within { end ≤ length history.now.steps }
        ensures { OnOk result (sends.new.items ≡
            sends.old.items ++
            filter_map (sought self.now) (drop start (take end history.now.steps))) }
    {
        for place in start..end {
            if let Some(send) = self.send_at(history, place) {
                sends.push(send)?;
            }
        }
        Ok(())
    }

    /// Whether the steps from `start` to `end` begin an undecided send.
    pub fn finds_between(&self, history: &History, start: usize, end: usize) -> bool
        requires search { IsSearch self.now }
        requires within { end ≤ length history.now.steps }
        ensures { result ≡ false →
            filter_map (sought self.now) (drop start (take end history.now.steps)) ≡ [] }
    {
        for place in start..end {
            if self.send_at(history, place).is_some() {
                return true;
            }
        }
        false
    }

    // The undecided send that the step at a place begins, and its destination.
    fn send_at(&self, history: &History, place: usize) -> Option<(Name, ThreadId)>
        requires search { IsSearch self.now }
        requires within { place < length history.now.steps }
        ensures { IfSome (slice_get history.now.steps place)
            (λ step. result ≡ sought self.now step) }
    {
        let name = history.begun(place)?;
        if name.k() < self.least {
            return None;
        }
        let at = self.machine.place_of(name.thread())?;
        let to = self.destination(at, name.k())?;
        Some((name, to))
    }

    // Where the send of this number of the thread at this place goes, while it is undecided.
    fn destination(&self, place: usize, k: u64) -> Option<ThreadId>
        ensures { result ≡ sent_to k (slice_get self.now.at_home.now.sends.items place) }
    {
        match self.at_home.sends.get(place) {
            Some(last) if last.k == k => last.to,
            _ => None,
        }
    }
}

// How many of these sends are undecided.
fn count_undecided(sends: &[LastSend]) -> usize
    ensures { result ≡ count_undecided sends.now }
{
    let mut count = 0;
    for send in sends {
        if send.to.is_some() {
            count += 1;
        }
    }
    count
}

// The least number of those of these sends that are undecided, the greatest of all if none is.
fn least_undecided(sends: &[LastSend]) -> u64
    ensures { AllByRecursion (IsNotBelow result) sends.now }
{
    let mut least = u64::MAX;
    for send in sends {
        if send.to.is_some() {
            least = least.min(send.k);
        }
    }
    least
}
