//! A processor that is alone in its machine.
ghost use Rattle.std.specs.Prelude.{◌≡◌, ◌<◌, ◌≤◌, ◌*◌, ◌↔◌, ◌^◌, [], IfOk, IsTrue, List, None};
ghost use Rattle.std.specs.Prelude.{OnOk, drop, false, is_some, length, slice_get, true};
ghost use Rattle.std.specs.Option.{option_map};
ghost use Rattle.l4_model.specs.Machine.{Machine as MachineOfModel};
ghost use Rattle.l4_model.specs.Steps.{Step as ModelStep};
ghost use Rattle.l4_model.specs.Words.{period_limit};
ghost use Rattle.l4_core_model.specs.Runs.{Run, Ticks, Turns, opening_run, told};
ghost use Rattle.l4_core_model.specs.Schedules.{attempts};
ghost use Rattle.l4_core_model.specs.Turns.{advance, is_busy, turn};
ghost use Rattle.l4_types.specs.declared.reports.Ending.TheVariants.{Quiet};
ghost use Rattle.l4_core.specs.EventBuffers.{IsOpen};
ghost use Rattle.l4_replay.specs.Entries.{most_turns};
ghost use Rattle.l4_machine.specs.Outcomes.{IsOutcomeOf};
ghost use Rattle.l4_told.specs.Told.{findings_with};
ghost use Rattle.l4_told.specs.Inner.Alone.{GoesOn, GoesOnInRounds, HasCome, HasEnded, HasRun};
ghost use Rattle.l4_told.specs.Inner.Alone.{HasTold, IsEventOf, Rests};
ghost use Rattle.l4_told.specs.Inner.Kept.{steps_in};

use crate::final_state::FinalState;
use crate::kept_steps::KeptSteps;
use l4_core::processor::Core;
use l4_replay::homes::OwnerView;
use l4_replay::waiting::Search;
use l4_replay::{Listener, law_core_run};
use l4_script::machine::Machine;
use l4_types::errors::NoMemory;
use l4_types::reports::Ending;
use std::alloc::Global;

/// The only processor of a machine in a run whose history is told.
#[derive(Drop)]
pub(crate) struct Alone<'m> {
    machine: &'m Machine,
    core: Core<'m>,
    kept: KeptSteps,
    events: u64,
}

impl<'m> Alone<'m> {
    /// The processor where nothing has happened.
    pub(crate) fn new(alloc: Global, machine: &'m Machine) -> Result<Alone<'m>, NoMemory>
        requires { machine.now.cpus ≡ 1 }
        ensures come { IfOk result (HasCome machine.now (opening_run machine.now) []) }
        ensures clock { IfOk result (λ alone. alone.core.local.clock ≡ 0) }
    {
        let core = Core::new(alloc, machine, 0)?;
        core.facts();
        Ok(Alone {
            machine,
            core,
            kept: KeptSteps::new(alloc),
            events: 0,
        })
    }

    /// Runs until nothing is left to do or these turns are used up.
    pub(crate) fn run<L: Listener>(
        &mut self,
        alloc: Global,
        turns: u64,
        listener: &mut L,
    ) -> Result<(), NoMemory>
        requires fresh { (m : MachineOfModel) × HasCome m (opening_run m) [] self.old }
        requires clock { self.old.core.local.clock ≡ 0 }
        requires few { turns ≤ most_turns }
        ensures { OnOk result ((m : MachineOfModel) → HasCome m (opening_run m) [] self.old →
            HasEnded m turns (λ steps. L.hears listener.old steps listener.new) self.new) }
    {
        for _ in 0..turns {
            self.make_room(alloc, listener)?;
            if !self.go_on() {
                return Ok(());
            }
        }
        Ok(())
    }

    // Takes the turn of the processor. Where there is nothing to do, the clock goes on to the least
    // deadline. Returns whether it did one of these.
    #[inline(always)]
    fn go_on(&mut self) -> bool
        requires run { HasRun self.old }
        requires few { self.old.events < most_turns }
        requires open { IsOpen self.old.kept.buffer }
        requires clock { self.old.core.local.clock ≤ self.old.events * period_limit }
        ensures on { IsTrue result → GoesOnInRounds self.old self.new }
        ensures clock { IsTrue result →
            self.new.core.local.clock ≤ self.new.events * period_limit }
        ensures rest { result ≡ false → Rests self.old × (self.new ≡ self.old) }
    {
        if self.turn() {
            return true;
        }
        match self.core.least_deadline() {
            Some(deadline) => self.advance(deadline),
            None => false,
        }
    }

    // Begins an event, with room for its steps.
    #[inline(always)]
    fn make_room<L: Listener>(&mut self, alloc: Global, listener: &mut L) -> Result<(), NoMemory>
        requires { HasRun self.old }
        ensures told { OnOk result (HasTold (λ steps. L.hears listener.old steps listener.new)
            self.old self.new) }
        ensures open { OnOk result (IsOpen self.new.kept.buffer) }
        ensures events { self.new.events ≡ self.old.events }
        ensures core { self.new.core ≡ self.old.core }
        ensures machine { self.new.machine.now ≡ self.old.machine.now }
    {
        if !self.kept.are_many() {
            return self.begin();
        }
        self.tell(alloc, listener)?;
        self.begin()
    }

    // Begins an event behind the steps that are kept.
    #[inline(always)]
    fn begin(&mut self) -> Result<(), NoMemory>
        ensures same { OnOk result (GoesOn (λ m r. r) self.old self.new) }
        ensures open { OnOk result (IsOpen self.new.kept.buffer) }
        ensures events { self.new.events ≡ self.old.events }
        ensures core { self.new.core ≡ self.old.core }
        ensures machine { self.new.machine.now ≡ self.old.machine.now }
    {
        self.kept.begin()
    }

    // Takes the turn of the processor. Returns whether there was anything to do.
    #[inline(always)]
    fn turn(&mut self) -> bool
        requires run { HasRun self.old }
        requires few { self.old.events < 2 ^ 61 }
        requires open { IsOpen self.old.kept.buffer }
        ensures goes { GoesOn (λ m r. attempts m r (Turns 0)) self.old self.new }
        ensures did { result ≡
            is_some (turn self.old.core.machine self.old.core.cpu self.old.core.local) }
        ensures same { result ≡ false → self.new ≡ self.old }
        ensures event { IsTrue result → IsEventOf
            (turn self.old.core.machine self.old.core.cpu self.old.core.local) self.old self.new }
        ensures machine { self.new.machine.now ≡ self.old.machine.now }
    {
        match self.core.turn_into(&mut self.kept.buffer) {
            Some(_) => {
                self.events += 1;
                true
            }
            None => false,
        }
    }

    // The clock goes on to this value, in ticks, if it may. Returns whether it did.
    fn advance(&mut self, to: u64) -> bool
        requires run { HasRun self.old }
        requires few { self.old.events < 2 ^ 61 }
        requires open { IsOpen self.old.kept.buffer }
        ensures goes { GoesOn (λ m r. attempts m r (Ticks 0 to)) self.old self.new }
        ensures did { result ≡
            is_some (advance self.old.core.machine self.old.core.cpu to self.old.core.local) }
        ensures event { IsTrue result → IsEventOf
            (advance self.old.core.machine self.old.core.cpu to self.old.core.local)
            self.old self.new }
        ensures machine { self.new.machine.now ≡ self.old.machine.now }
    {
        match self.core.advance_into(to, &mut self.kept.buffer) {
            Ok(_) => {
                self.events += 1;
                true
            }
            Err(_) => false,
        }
    }

    // Tells the steps that are to be told, and keeps what begins the undecided sends.
    #[inline(never)]
    fn tell<L: Listener>(&mut self, alloc: Global, listener: &mut L) -> Result<(), NoMemory>
        requires { HasRun self.old }
        ensures told { OnOk result (HasTold (λ steps. L.hears listener.old steps listener.new)
            self.old self.new) }
        ensures events { self.new.events ≡ self.old.events }
        ensures core { self.new.core ≡ self.old.core }
        ensures machine { self.new.machine.now ≡ self.old.machine.now }
    {
        self.kept.tell(listener)?;
        let state = self.final_state(alloc)?;
        self.kept.forget(alloc, state.waiting.as_slice())
    }

    /// Tells the steps that are to be told.
    pub(crate) fn tell_left<L: Listener>(&self, listener: &mut L) -> Result<(), NoMemory>
        requires { self.now.kept.marks.untold ≤ length (steps_in self.now.kept) }
        ensures { OnOk result
            (L.hears listener.old (drop self.now.kept.marks.untold (steps_in self.now.kept))
            listener.new) }
    {
        self.kept.tell(listener)
    }

    /// Where it has come to.
    pub(crate) fn final_state(&self, alloc: Global) -> Result<FinalState, NoMemory>
        requires { HasRun self.now }
        ensures { (m : MachineOfModel) (r : Run) (before : List ModelStep) →
            HasCome m r before self.now →
            IfOk result (λ state. IsOutcomeOf m r (findings_with (told r.events) state)) }
    {
        law_core_run();
        let cores = [&self.core];
        let at_home = OwnerView::new(alloc, self.machine, &cores)?;
        let search = Search::new(self.machine, &at_home);
        let waiting = search.of_history(alloc, self.kept.history())?;
        Ok(FinalState {
            waiting,
            ending: self.ending(),
            threads: at_home.threads,
            turns: self.events,
        })
    }

    // `Quiet` where nothing is to be done or armed.
    fn ending(&self) -> Ending
        ensures { (result ≡ Quiet) ↔
            ((is_busy self.now.core.machine self.now.core.cpu self.now.core.local ≡ false) ×
            (option_map (λ e. e.0) (slice_get self.now.core.local.lists.armed 0) ≡ None)) }
    {
        if !self.core.busy() && self.core.least_deadline().is_none() {
            Ending::Quiet
        } else {
            Ending::Spent
        }
    }
}
