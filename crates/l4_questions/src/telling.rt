//! The endings of a search, told as they are found.
ghost use Rattle.std.specs.Prelude.{◌≡◌, ◌<◌, ◌∷◌, [], IfOk, OnErr, length, false};
ghost use Rattle.l4_all_endings.specs.Tried.{LeadsToWorld};
ghost use Rattle.l4_endings.specs.Told.{AreChoices};
ghost use Rattle.l4_explore.specs.Search.{seen_at, Seen};
ghost use Rattle.l4_model.specs.Machine.{Machine as ModelMachine};
ghost use Rattle.l4_questions.specs.Endings.{Ending};
ghost use Rattle.l4_questions.specs.Inner.Found.{ending_seen, placed_seen};
ghost use Rattle.l4_questions.specs.Inner.Tellings.{HasTold, IsSameTelling};

use crate::asked::is_asked;
use crate::beside::Beside;
use crate::found::FoundEnding;
use crate::judged::Told;
use crate::listed::Listed;
use crate::question::Question;
use crate::teller::Teller;
use l4_endings::entries_at;
use l4_explore::found::Found;
use l4_explore::listener::Listener;
use l4_script::machine::Machine;
use l4_types::errors::NoMemory;
use std::alloc::{AllocError, Global};

/// What a search goes through.
pub(crate) trait Searched {
    /// The ending of a state that it has found.
    ghost ending: { ModelMachine → Seen → Ending };

    /// Whether its schedule leads there.
    ghost leads: { ModelMachine → Seen → Type 0 };

    /// The ending of the state at a place.
    ///
    /// `NoMemory`: memory was refused.
    fn ending<'m>(
        &self,
        alloc: Global,
        machine: &'m Machine,
        found: &Found,
        place: usize,
    ) -> Result<FoundEnding<'m>, NoMemory>
        requires inside { place < length found.now }
        requires leads { leads machine.now (seen_at found.now place) }
        ensures { IfOk result (λ it. it ≡ ending machine.now (seen_at found.now place)) };
}

/// All histories.
#[derive(Clone, Copy)]
pub(crate) struct Histories;

impl Searched for Histories {
    ghost ending = { ending_seen };

    ghost leads = { λ m seen. LeadsToWorld m seen.schedule };

    fn ending<'m>(
        &self,
        alloc: Global,
        machine: &'m Machine,
        found: &Found,
        place: usize,
    ) -> Result<FoundEnding<'m>, NoMemory> {
        let entries = found.schedule(alloc, place)?;
        entries.ending(alloc, machine)
    }
}

/// The runs of placed threads.
#[derive(Clone, Copy)]
pub(crate) struct PlacedRuns;

impl Searched for PlacedRuns {
    ghost ending = { placed_seen };

    ghost leads = { λ m seen. AreChoices m seen.schedule };

    fn ending<'m>(
        &self,
        alloc: Global,
        machine: &'m Machine,
        found: &Found,
        place: usize,
    ) -> Result<FoundEnding<'m>, NoMemory> {
        let entries = entries_at(alloc, machine, found, place)?;
        entries.ending(alloc, machine)
    }
}

/// What an answer is asked for.
#[derive(Clone, Copy)]
pub(crate) struct Asking<'a> {
    pub(crate) machine: &'a Machine,
    pub(crate) question: &'a Question<'a>,
    pub(crate) beside: Beside<'a, 'a>,
}

/// Tells a teller each ending that is asked for.
#[derive(Drop)]
pub(crate) struct Telling<'a, S, T> {
    pub(crate) searched: S,
    pub(crate) asking: &'a Asking<'a>,
    /// What is known of the endings so far.
    pub(crate) told: &'a mut Told,
    pub(crate) teller: &'a mut T,
}

impl<'a, S: Searched, T: Teller> Telling<'a, S, T> {
    // Tells an ending, if the question asks for it. False if not all of its lines were taken.
    fn tell(&mut self, alloc: Global, found: FoundEnding<'_>) -> Result<bool, NoMemory>
        ensures same { IsSameTelling self.old self.new }
        ensures told { IfOk result (λ more.
            HasTold T.takes self.old self.new (found.entry ∷ []) more) }
        ensures refused { OnErr result (HasTold T.takes self.old self.new (found.entry ∷ []) false) }
    {
        self.told.is_any = true;
        if !is_asked(self.asking.question, &found) {
            return Ok(true);
        }
        let mut lines = Vec::new(alloc);
        self.told
            .write(alloc, self.asking.beside, found, &mut lines)?;
        if self.teller.tell(&lines).is_err() {
            self.told.is_refused = true;
            return Ok(false);
        }
        Ok(true)
    }
}

impl<'a, S: Searched, T: Teller> Listener for Telling<'a, S, T> {
    ghost use Rattle.l4_questions.specs.Inner.Tellings.{Tells};
    ghost use Rattle.l4_questions.specs.Inner.ToldLaws.{tells_both, tells_none};

    ghost may_hear = { λ telling seen. S.leads telling.asking.now.machine.now seen };

    ghost hears = { λ old new ends more. Tells S.ending T.takes old new ends more };

    fn told(&mut self, alloc: Global, found: &Found, place: usize) -> Result<bool, AllocError> {
        let Ok(ending) = self
            .searched
            .ending(alloc, self.asking.machine, found, place)
        else {
            return Err(AllocError);
        };
        match self.tell(alloc, ending) {
            Ok(more) => Ok(more),
            Err(_) => Err(AllocError),
        }
    }

    ghost silent = { λ x. tells_none S.ending T.takes T.nothing x };

    ghost joined = { λ a b c front back more one two.
        tells_both S.ending T.takes T.joined a b c front back more one two };
}
