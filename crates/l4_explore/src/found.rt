//! The states that a search has found.
ghost use Rattle.std.specs.Prelude.{◌≡◌, ◌<◌, ◌++◌, ◌∷◌, ◌^◌, [], false, None, Some, IfNone, IfOk};
ghost use Rattle.std.specs.Prelude.{IfSome, OnErr, OnOk, length};
ghost use Rattle.l4_explore.specs.Search.{has_code, seen_at, seen_next};
ghost use Rattle.l4_explore.specs.Inner.Views.{IsArrived, state_from};

use crate::row_table::RowTable;
use crate::tries::Reached;
use std::alloc::{AllocError, Global};
use std::marker::Model;

/// The states that a search has found, by their codes: at least the opening state. Each has the
/// schedule that it was found by.
#[derive(Drop)]
pub struct Found {
    codes: RowTable,
    // How each of them was found.
    arrivals: Vec<Arrival>,
    // Whether nothing is left to do in each of them.
    ends: Vec<bool>,
}

// How a state was found: from the state at a place, by one more entry. The first state is that of
// the empty schedule.
#[derive(Clone, Copy)]
struct Arrival {
    from: u32,
    entry: u32,
}

impl Model for Found {
    ghost use Rattle.std.specs.Prelude.{List};
    ghost use Rattle.l4_explore.specs.Search.{Seen};
    ghost use Rattle.l4_explore.specs.Inner.Grown.{seen_of};
    ghost use Rattle.l4_explore.specs.Inner.Views.{all_arrived, nodes_from, AreKept};

    ghost Value = { List Seen };

    ghost view = { λ f. seen_of (nodes_from f.codes (all_arrived f.arrivals.items f.ends.items)) };

    ghost invariant = { λ f. AreKept f.codes f.arrivals.items f.ends.items };
}

impl Found {
    /// The opening state alone, as found by the empty schedule.
    ///
    /// `AllocError`: memory was refused.
    pub(crate) fn new(alloc: Global, opening: Reached) -> Result<Found, AllocError>
        ensures { IfOk result (λ found.
            found ≡ record { state = state_from opening; schedule = [] } ∷ []) }
    {
        Ok(Found {
            codes: RowTable::new(alloc, &opening.code)?,
            arrivals: vec![in alloc; Arrival { from: 0, entry: 0 }]?,
            ends: vec![in alloc; opening.is_end]?,
        })
    }

    /// The number of found states, at least one.
    pub fn len(&self) -> usize
        ensures value { result ≡ length self.now }
        ensures some { 0 < result }
    {
        self.codes.len()
    }

    /// The code of the state at a place.
    ///
    /// `AllocError`: memory was refused.
    pub fn code(&self, alloc: Global, place: usize) -> Result<Vec<u8>, AllocError>
        requires { place < length self.now }
        ensures { IfOk result (λ code. code.items ≡ (seen_at self.now place).state.code) }
    {
        self.codes.code(alloc, place)
    }

    /// Whether nothing is left to do in the state at a place.
    pub fn is_end(&self, place: usize) -> bool
        requires { place < length self.now }
        ensures { result ≡ (seen_at self.now place).state.is_end }
    {
        self.ends[place]
    }

    /// The schedule of the state at a place.
    ///
    /// `AllocError`: memory was refused.
    pub fn schedule(&self, alloc: Global, place: usize) -> Result<Vec<u32>, AllocError>
        requires { place < length self.now }
        ensures { IfOk result (λ schedule. schedule.items ≡ (seen_at self.now place).schedule) }
    {
        let mut schedule = Vec::with_capacity(alloc, self.depth(place))?;
        let mut place = place;
        while let Some(arrival) = self.last_step(place) {
            schedule.push(arrival.entry)?;
            place = arrival.from as usize;
        }
        schedule.reverse();
        Ok(schedule)
    }

    /// How many entries the schedule of the state at a place has.
    pub fn depth(&self, place: usize) -> usize
        requires { place < length self.now }
        ensures { result ≡ length (seen_at self.now place).schedule }
    {
        let mut depth = 0;
        let mut place = place;
        while let Some(arrival) = self.last_step(place) {
            depth += 1;
            place = arrival.from as usize;
        }
        depth
    }

    // The last step of the schedule of the state at a place. None if the schedule is empty.
    fn last_step(&self, place: usize) -> Option<Arrival>
        requires { place < length self.now }
        ensures { IsArrived self.now place result }
    {
        let arrival = self.arrival(place);
        if place == 0 { None } else { Some(arrival) }
    }

    // How the state at a place was found.
    fn arrival(&self, place: usize) -> Arrival
        requires { place < length self.now }
        ensures first { IsArrived self.now 0 None }
        ensures later { 0 < place → IsArrived self.now place (Some result) }
    {
        self.arrivals[place]
    }

    /// Whether a state with this code was found.
    pub(crate) fn has(&self, code: &[u8]) -> bool
        ensures { result ≡ has_code self.now code.now }
    {
        self.codes.find(code).is_some()
    }

    /// The place of the found state with this code, if there is one.
    pub fn place_of(&self, code: &[u8]) -> Option<usize>
        ensures found { IfSome result (λ place. (place < length self.now)
            × ((seen_at self.now place).state.code ≡ code.now)) }
        ensures absent { IfNone result (has_code self.now code.now ≡ false) }
    {
        self.codes.find(code)
    }

    /// Adds a state, found by one more entry from the state at place `from`.
    ///
    /// `AllocError`: memory was refused.
    pub(crate) fn add(
        &mut self,
        from: usize,
        entry: u32,
        reached: Reached,
    ) -> Result<(), AllocError>
        requires from { from < length self.old }
        requires few { length self.old < 2 ^ 32 }
        requires new { has_code self.old reached.code.items ≡ false }
        ensures ok { OnOk result (self.new ≡ self.old
            ++ seen_next self.old from (record {
              entry = entry;
              state = state_from reached;
            }) ∷ []) }
        ensures err { OnErr result (self.new ≡ self.old) }
    {
        let arrival = Arrival {
            from: from as u32,
            entry,
        };
        self.arrivals.reserve(1)?;
        self.ends.reserve(1)?;
        self.codes.push(*reached.code.allocator(), &reached.code)?;
        self.arrivals.push_reserved(arrival);
        self.ends.push_reserved(reached.is_end);
        Ok(())
    }
}
