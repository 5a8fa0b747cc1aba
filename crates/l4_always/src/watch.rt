//! The worlds of a machine, as a search for one that meets a condition tries them.
ghost use Rattle.std.specs.Prelude.{◌≡◌, ◌+◌, ◌^◌, ◌<◌, ◌∷◌, [], IfOk, IfSome, IsSome, length, map};
ghost use Rattle.std.specs.Prelude.{take};
ghost use Rattle.l4_explore.specs.Search.{seen_at, AreApart};
ghost use Rattle.l4_explore.specs.Tries.{AreCoded};
ghost use Rattle.l4_explore.specs.Inner.Views.{next_from, state_from};
ghost use Rattle.l4_futures.specs.Choices.{possible, world_after};
ghost use Rattle.l4_futures.specs.Inner.Search.{state_after};
ghost use Rattle.l4_invariants.specs.Inner.Searched.{AreAllTried, AreWatched, IsLone};
ghost use Rattle.l4_condition_lines.specs.Inner.Reading.{reads_of};
ghost use Rattle.l4_outlooks.specs.Inner.Foreseen.{IsLed};
ghost use Rattle.l4_outlooks.specs.Inner.Standing.{left_alone};
ghost use Rattle.l4_all_endings.specs.Tried.{next_at, AreOpen};
ghost use Rattle.l4_always.specs.Inner.Parts.{parts_read};
ghost use Rattle.l4_always.specs.Inner.Unseen.{AreAllAfter, AreWatchedAfter, IsUnseenBy};

use crate::reading::{Parts, parts_read};
use crate::unseen::goes_unseen;
use l4_all_endings::{Way, choice_by, reached_state};
use l4_expect::conditions::Condition;
use l4_explore::found::Found;
use l4_explore::tries::{Choice, Reached, Tries};
use l4_outlooks::{Alone, Outlook, know_times};
use l4_script::machine::Machine;
use l4_stuck::{choices_by, is_later};
use l4_types::errors::NoMemory;
use l4_types::step_ref::StepRef;
use std::alloc::{AllocError, Global};

/// The worlds of a machine, which steps of its threads nobody can disturb, and what a condition
/// reads of them.
#[derive(Drop)]
pub(crate) struct Watch<'m, 't> {
    machine: &'m Machine,
    condition: &'m Condition<'t>,
    alone: Alone,
    read: Vec<Parts>,
    way: Way<'m>,
    ghost coded: { AreCoded (state_after machine.now) },
    ghost known: { alone ≡ left_alone machine.now },
    ghost reads: { read.items ≡ parts_read machine.now condition.now },
    ghost same: { way ≡ machine.now },
}

impl<'m, 't> Watch<'m, 't> {
    /// The worlds of a machine, for a condition.
    #[tactic(auto, using(l4_stuck::proofs::Walking::coded))]
    pub(crate) fn new(
        alloc: Global,
        machine: &'m Machine,
        condition: &'m Condition<'t>,
    ) -> Result<Watch<'m, 't>, NoMemory>
        ensures { IfOk result (λ watch. (watch.machine.now ≡ machine.now)
            × (watch.condition.now ≡ condition.now)) }
    {
        know_times(machine);
        let alone = Alone::new(alloc, machine)?;
        let read = parts_read(alloc, machine, condition)?;
        let way = Way::new(alloc, machine)?;
        Ok(Watch {
            machine,
            condition,
            alone,
            read,
            way,
        })
    }

    // The choice of an entry, if nobody can disturb its step and the condition does not see it.
    fn unseen_choice(
        &self,
        alloc: Global,
        outlook: &Outlook<'_>,
        entry: u32,
    ) -> Result<Option<Choice>, NoMemory>
        requires same { outlook.now.machine ≡ self.now.machine.now }
        requires room { outlook.now.taken + 1 < 2 ^ 20 }
        ensures { IfOk result (λ choice. IfSome choice (λ c.
            IsUnseenBy self.now.machine.now (reads_of self.now.condition.now) outlook.now.world
            entry (next_from c))) }
    {
        let Some(step) = outlook.step(entry) else {
            return Ok(None);
        };
        let step = StepRef::from(&step);
        if !goes_unseen(self.machine, outlook, &self.alone, &self.read, &step) {
            return Ok(None);
        }
        let choice = choice_by(alloc, outlook.try_clone(alloc)?, entry)?;
        Ok(Some(choice))
    }

    // The first of these choices that the condition does not see, and that leads to a state behind
    // this place, if that was found at all.
    fn lone_choice(
        &self,
        alloc: Global,
        outlook: &Outlook<'_>,
        found: &Found,
        place: usize,
        all: &[u32],
    ) -> Result<Option<Choice>, NoMemory>
        requires inside { place < length found.now }
        requires once { AreApart found.now }
        requires same { outlook.now.machine ≡ self.now.machine.now }
        requires room { outlook.now.taken + 1 < 2 ^ 20 }
        requires possible { all.now
            ≡ map (λ c. c.entry) (possible outlook.now.machine outlook.now.world) }
        ensures { IfOk result (λ choice. IfSome choice (λ c.
            IsLone self.now.machine.now (reads_of self.now.condition.now) (take place found.now)
            (seen_at found.now place) outlook.now.world (next_from c ∷ []))) }
    {
        for entry in all {
            let Some(choice) = self.unseen_choice(alloc, outlook, *entry)? else {
                continue;
            };
            if is_later(found, place, &choice.reached.code) {
                return Ok(Some(choice));
            }
        }
        Ok(None)
    }

    // The choices of the found state at a place, to which these entries lead.
    fn choices_after(
        &mut self,
        alloc: Global,
        found: &Found,
        place: usize,
        entries: &[u32],
    ) -> Result<Vec<Choice>, NoMemory>
        requires inside { place < length found.now }
        requires once { AreApart found.now }
        requires leads { IsSome (world_after self.old.machine.now entries.now) }
        requires few { length entries.now + 1 < 2 ^ 20 }
        ensures are { IfOk result (λ choices. AreWatchedAfter self.old.machine.now
            (reads_of self.old.condition.now) (take place found.now) (seen_at found.now place)
            entries.now (map next_from choices.items)) }
        ensures same { (self.new.machine ≡ self.old.machine)
            × (self.new.condition ≡ self.old.condition) }
    {
        let outlook = self.way.outlook(alloc, entries)?;
        let all = outlook.possible(alloc)?;
        match self.lone_choice(alloc, &outlook, found, place, &all)? {
            Some(choice) => Ok(vec![in alloc; choice]?),
            None => Ok(choices_by(alloc, &outlook, &all)?),
        }
    }
}

// The state of the opening of a machine.
fn opening_of(alloc: Global, machine: &Machine) -> Result<Reached, AllocError>
    ensures { IfOk result (λ r. state_after machine.now [] ≡ Some (state_from r)) }
{
    let Ok(outlook) = Outlook::new(alloc, machine) else {
        return Err(AllocError);
    };
    reached_state(alloc, &outlook)
}

impl<'m, 't> Tries for Watch<'m, 't> {
    ghost state_of = { λ w. state_after w.machine.now };

    ghost offers = { λ w. AreWatched w.machine.now (reads_of w.condition.now) };

    ghost coded = { λ w. w.coded };

    fn opening(&self, alloc: Global) -> Result<Reached, AllocError> {
        opening_of(alloc, self.machine)
    }

    fn choices(
        &mut self,
        alloc: Global,
        found: &Found,
        place: usize,
    ) -> Result<Vec<Choice>, AllocError> {
        let entries = found.schedule(alloc, place)?;
        let Ok(choices) = self.choices_after(alloc, found, place, &entries) else {
            return Err(AllocError);
        };
        Ok(choices)
    }
}

/// The worlds of a machine. All that is possible is tried.
#[derive(Drop)]
pub(crate) struct AllWorlds<'m> {
    machine: &'m Machine,
    way: Way<'m>,
    ghost coded: { AreCoded (state_after machine.now) },
    ghost same: { way ≡ machine.now },
}

impl<'m> AllWorlds<'m> {
    /// The worlds of a machine.
    #[tactic(auto, using(l4_stuck::proofs::Walking::coded))]
    pub(crate) fn new(alloc: Global, machine: &'m Machine) -> Result<AllWorlds<'m>, NoMemory>
        ensures { IfOk result (λ worlds. worlds.machine.now ≡ machine.now) }
    {
        know_times(machine);
        let way = Way::new(alloc, machine)?;
        Ok(AllWorlds { machine, way })
    }

    // The choices of the world that these entries lead to.
    fn choices_after(&mut self, alloc: Global, entries: &[u32]) -> Result<Vec<Choice>, NoMemory>
        requires leads { IsSome (world_after self.old.machine.now entries.now) }
        requires few { length entries.now + 1 < 2 ^ 20 }
        ensures are { IfOk result (λ choices.
            AreAllAfter self.old.machine.now entries.now (map next_from choices.items)) }
        ensures same { self.new.machine ≡ self.old.machine }
    {
        let outlook = self.way.outlook(alloc, entries)?;
        let all = outlook.possible(alloc)?;
        let choices = choices_by(alloc, &outlook, &all)?;
        Ok(choices)
    }
}

impl<'m> Tries for AllWorlds<'m> {
    ghost state_of = { λ w. state_after w.machine.now };

    ghost offers = { λ w. AreAllTried w.machine.now };

    ghost coded = { λ w. w.coded };

    fn opening(&self, alloc: Global) -> Result<Reached, AllocError> {
        opening_of(alloc, self.machine)
    }

    fn choices(
        &mut self,
        alloc: Global,
        found: &Found,
        place: usize,
    ) -> Result<Vec<Choice>, AllocError> {
        let entries = found.schedule(alloc, place)?;
        let Ok(choices) = self.choices_after(alloc, &entries) else {
            return Err(AllocError);
        };
        Ok(choices)
    }
}
