//! The worlds of a machine, as a search for stuck threads tries them.
ghost use Rattle.std.specs.Prelude.{◌≡◌, ◌+◌, ◌++◌, ◌∷◌, ◌^◌, ◌<◌, [], IfOk, IsSome, false, length};
ghost use Rattle.std.specs.Prelude.{map, take, true};
ghost use Rattle.l4_explore.specs.Search.{has_code, seen_at, AreApart};
ghost use Rattle.l4_explore.specs.Tries.{AreCoded};
ghost use Rattle.l4_explore.specs.Inner.Views.{next_from};
ghost use Rattle.l4_futures.specs.Choices.{world_after};
ghost use Rattle.l4_futures.specs.Inner.Search.{state_after};
ghost use Rattle.l4_forever.specs.Inner.Walks.{are_fresh, AreWalked};
ghost use Rattle.l4_outlooks.specs.Inner.Standing.{left_alone};
ghost use Rattle.l4_all_endings.specs.Tried.{nexts_at, AreOpen};
ghost use Rattle.l4_stuck.specs.Inner.Going.{AreWalkedAfter};

use l4_all_endings::{Way, choice_by, reached_state};
use l4_explore::found::Found;
use l4_explore::tries::{Choice, Reached, Tries};
use l4_outlooks::{Alone, Outlook, know_times};
use l4_script::machine::Machine;
use l4_types::errors::NoMemory;
use std::alloc::{AllocError, Global};

/// The worlds of a machine, and which steps of its threads may be told alone.
#[derive(Drop)]
pub(crate) struct Walks<'m> {
    pub machine: &'m Machine,
    pub alone: Alone,
    pub way: Way<'m>,
    ghost coded: { AreCoded (state_after machine.now) },
    ghost known: { alone ≡ left_alone machine.now },
    ghost same: { way ≡ machine.now },
}

impl<'m> Walks<'m> {
    /// The worlds of a machine.
    #[tactic(auto, using(crate::proofs::Walking::coded))]
    pub(crate) fn new(alloc: Global, machine: &'m Machine) -> Result<Walks<'m>, NoMemory>
        ensures { IfOk result (λ walks. walks.machine.now ≡ machine.now) }
    {
        know_times(machine);
        let alone = Alone::new(alloc, machine)?;
        let way = Way::new(alloc, machine)?;
        Ok(Walks {
            machine,
            alone,
            way,
        })
    }

    // The choices of the found state at a place, to which these entries lead.
    fn choices_after(
        &mut self,
        alloc: Global,
        found: &Found,
        place: usize,
        entries: &[u32],
    ) -> Result<Vec<Choice>, NoMemory>
        requires inside { place < length found.now }
        requires once { AreApart found.now }
        requires leads { IsSome (world_after self.old.machine.now entries.now) }
        requires few { length entries.now + 1 < 2 ^ 20 }
        ensures are { IfOk result (λ choices. AreWalkedAfter self.old.machine.now
            (take place found.now) (seen_at found.now place) entries.now
            (map next_from choices.items)) }
        ensures same { self.new.machine ≡ self.old.machine }
    {
        let outlook = self.way.outlook(alloc, entries)?;
        let tried = outlook.choices(alloc, &self.alone)?;
        let choices = choices_by(alloc, &outlook, &tried)?;
        if are_later(found, place, &choices) {
            return Ok(choices);
        }
        let all = outlook.possible(alloc)?;
        let every = choices_by(alloc, &outlook, &all)?;
        Ok(every)
    }
}

impl<'m> Tries for Walks<'m> {
    ghost state_of = { λ w. state_after w.machine.now };

    ghost offers = { λ w. AreWalked w.machine.now };

    ghost coded = { λ w. w.coded };

    fn opening(&self, alloc: Global) -> Result<Reached, AllocError> {
        let Ok(outlook) = Outlook::new(alloc, self.machine) else {
            return Err(AllocError);
        };
        reached_state(alloc, &outlook)
    }

    fn choices(
        &mut self,
        alloc: Global,
        found: &Found,
        place: usize,
    ) -> Result<Vec<Choice>, AllocError> {
        let entries = found.schedule(alloc, place)?;
        let Ok(choices) = self.choices_after(alloc, found, place, &entries) else {
            return Err(AllocError);
        };
        Ok(choices)
    }
}

/// The states that each of these entries leads to.
///
/// `NoMemory`: memory was refused.
pub fn choices_by(
    alloc: Global,
    outlook: &Outlook<'_>,
    entries: &[u32],
) -> Result<Vec<Choice>, NoMemory>
    requires possible { AreOpen outlook.now.machine outlook.now.world entries.now }
    requires room { outlook.now.taken + 1 < 2 ^ 20 }
    ensures { IfOk result (λ choices.
        map next_from choices.items ≡ nexts_at outlook.now.machine outlook.now.world entries.now) }
{
    let mut choices = Vec::new(alloc);
    for entry in entries {
        let copy = outlook.try_clone(alloc)?;
        choices.push(choice_by(alloc, copy, *entry)?)?;
    }
    Ok(choices)
}

// Whether each of these choices leads to a state behind this place, if it was found at all.
fn are_later(found: &Found, place: usize, choices: &[Choice]) -> bool
    requires inside { place < length found.now }
    requires once { AreApart found.now }
    ensures { result ≡ true →
        are_fresh (take place found.now) (seen_at found.now place) (map next_from choices.now)
        ≡ true }
{
    for choice in choices {
        if !is_later(found, place, &choice.reached.code) {
            return false;
        }
    }
    true
}

/// Whether the state of this code stands behind a place, if it was found at all.
pub fn is_later(found: &Found, place: usize, code: &[u8]) -> bool
    requires inside { place < length found.now }
    requires once { AreApart found.now }
    ensures { result ≡ true →
        has_code (take place found.now ++ seen_at found.now place ∷ []) code.now ≡ false }
{
    match found.place_of(code) {
        Some(at) => at > place,
        None => true,
    }
}
