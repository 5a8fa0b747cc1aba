//! A replay under way that lists its entries.
ghost use Rattle.std.specs.Prelude.{◌≡◌, ◌+◌, ◌<◌, ◌≤◌, ◌++◌, ◌∷◌, ◌^◌, [], IfOk, OnOk, Some};
ghost use Rattle.std.specs.Prelude.{length, true};
ghost use Rattle.std.specs.Prelude.{◌&&◌, nat_lt};
ghost use Rattle.l4_model.specs.Words.{clock_limit};
ghost use Rattle.l4_core_model.specs.Schedules.{earliest, earliest_deadline, round, round_or_ticks};
ghost use Rattle.l4_core_model.specs.Schedules.{ticks, ticks_to};
ghost use Rattle.l4_replay.specs.Entries.{after_entry, entry_from, is_entry, most_turns};
ghost use Rattle.l4_rounds.specs.ThenRest.{in_rounds};

use l4_replay::{Entry, Walk};
use l4_script::machine::Machine;
use l4_types::errors::NoMemory;
use l4_types::steps::CLOCKS;
use std::alloc::Global;

/// A replay under way, with the entries that it is the replay of.
#[derive(Drop)]
pub(crate) struct Replay<'m> {
    pub(crate) machine: &'m Machine,
    pub(crate) walk: Walk<'m>,
    pub(crate) entries: Vec<Entry>,
}

impl<'m> Replay<'m> {
    ghost use Rattle.l4_rounds.specs.Inner.Replays.{entries_of, run_of, HasGoneOn, IsReplay};

    /// The replay of no entries, on a machine where nothing has happened.
    ///
    /// `NoMemory`: memory was refused.
    pub(crate) fn new(alloc: Global, machine: &'m Machine) -> Result<Replay<'m>, NoMemory>
        ensures replay { IfOk result IsReplay }
        ensures machine { IfOk result (λ replay. replay.machine.now ≡ machine.now) }
        ensures entries { IfOk result (λ replay. entries_of replay ≡ []) }
    {
        Ok(Replay {
            machine,
            walk: Walk::new(alloc, machine)?,
            entries: Vec::new(alloc),
        })
    }

    /// Does what an entry asks for, if that can be done, and lists the entry.
    ///
    /// `NoMemory`: memory was refused, and this value is no replay any more.
    pub(crate) fn take(&mut self, entry: Entry) -> Result<(), NoMemory>
        requires replay { IsReplay self.old }
        requires few { length self.old.entries.items < 2 ^ 60 }
        requires lawful { is_entry self.old.machine.now (entry_from entry) ≡ true }
        ensures replay { OnOk result (IsReplay self.new) }
        ensures machine { OnOk result (self.new.machine ≡ self.old.machine) }
        ensures entries { OnOk result
            (entries_of self.new ≡ entries_of self.old ++ entry_from entry ∷ []) }
    {
        self.walk.take(entry)?;
        self.entries.push(entry)?;
        Ok(())
    }

    /// Goes on in rounds until `turns` more turns are used up, or nothing goes on.
    ///
    /// `NoMemory`: memory was refused, and this value is no replay any more.
    pub(crate) fn go_on(&mut self, turns: u64) -> Result<(), NoMemory>
        requires replay { IsReplay self.old }
        requires few { length self.old.entries.items + turns ≤ most_turns }
        ensures { OnOk result (HasGoneOn (in_rounds turns) self.old self.new) }
    {
        let most = self.walk.events() + turns;
        for done in 0..turns {
            let _ = done;
            let before = self.walk.events();
            self.go_round()?;
            let after = self.walk.events();
            if after <= before || after >= most {
                return Ok(());
            }
        }
        Ok(())
    }

    // Takes a round, or ticks if the round has no event.
    fn go_round(&mut self) -> Result<(), NoMemory>
        requires replay { IsReplay self.old }
        requires few { length self.old.entries.items < 2 ^ 50 }
        ensures { OnOk result
            (HasGoneOn (λ m r. round_or_ticks m r (round m r)) self.old self.new) }
    {
        let before = self.walk.events();
        self.round()?;
        if self.walk.events() > before {
            return Ok(());
        }
        self.tick()
    }

    // Takes a round: one turn of each processor, rising.
    fn round(&mut self) -> Result<(), NoMemory>
        requires replay { IsReplay self.old }
        requires few { length self.old.entries.items < 2 ^ 51 }
        ensures { OnOk result (HasGoneOn round self.old self.new) }
    {
        for cpu in 0..self.machine.cpus() {
            self.attempt(Entry::Turn(cpu))?;
        }
        Ok(())
    }

    // Advances all clocks below the earliest deadline to it.
    fn tick(&mut self) -> Result<(), NoMemory>
        requires replay { IsReplay self.old }
        requires few { length self.old.entries.items < 2 ^ 51 }
        ensures { OnOk result (HasGoneOn ticks self.old self.new) }
    {
        match self.earliest_deadline() {
            Some(deadline) if is_ahead(deadline) => self.tick_to(deadline),
            _ => Ok(()),
        }
    }

    // Advances all clocks below this value to it, in ticks.
    fn tick_to(&mut self, clock: u64) -> Result<(), NoMemory>
        requires replay { IsReplay self.old }
        requires few { length self.old.entries.items < 2 ^ 51 }
        requires clock { (0 < clock) × (clock < clock_limit) }
        ensures { OnOk result (HasGoneOn (λ m r. ticks_to m r (Some clock)) self.old self.new) }
    {
        for cpu in 0..self.machine.cpus() {
            self.attempt(Entry::TickTo { cpu, clock })?;
        }
        Ok(())
    }

    // The earliest deadline of all processors, in ticks.
    fn earliest_deadline(&self) -> Option<u64>
        requires { IsReplay self.now }
        ensures { result ≡ earliest_deadline self.now.machine.now (run_of self.now).system }
    {
        let mut first = None;
        for cpu in 0..self.machine.cpus() {
            first = earliest(first, self.walk.core(cpu).least_deadline());
        }
        first
    }

    // Does what an entry asks for, and lists the entry if there was an event.
    fn attempt(&mut self, entry: Entry) -> Result<(), NoMemory>
        requires replay { IsReplay self.old }
        requires few { length self.old.entries.items < 2 ^ 60 }
        requires lawful { is_entry self.old.machine.now (entry_from entry) ≡ true }
        ensures { OnOk result (HasGoneOn (after_entry (entry_from entry)) self.old self.new) }
    {
        let before = self.walk.events();
        self.walk.take(entry)?;
        if self.walk.events() > before {
            self.entries.push(entry)?;
        }
        Ok(())
    }
}

// Whether a clock may go on to this value, in ticks.
fn is_ahead(clock: u64) -> bool
    ensures { result ≡ (nat_lt 0 clock && nat_lt clock clock_limit) }
{
    0 < clock && clock < CLOCKS
}

// The earlier of two deadlines, if there are any.
fn earliest(a: Option<u64>, b: Option<u64>) -> Option<u64>
    ensures { result ≡ earliest a b }
{
    match (a, b) {
        (Some(a), Some(b)) => Some(a.min(b)),
        (Some(_), None) => a,
        (None, _) => b,
    }
}
