//! The worlds that a search asks for, one after the other.
ghost use Rattle.std.specs.Prelude.{◌≡◌, ◌<◌, ◌≤◌, ◌^◌, IfOk, IsSome, length, take, true};
ghost use Rattle.l4_futures.specs.Choices.{world_after};
ghost use Rattle.l4_outlooks.specs.Inner.Foreseen.{IsLed};
ghost use Rattle.l4_all_endings.specs.Inner.Way.{IsOnWay};

use l4_outlooks::Outlook;
use l4_script::machine::Machine;
use l4_types::errors::NoMemory;
use std::alloc::Global;
use std::marker::Model;

// No world is kept that lies fewer entries before one that is asked for.
const NEAREST: usize = 4;

// No more worlds are kept.
const MOST_KEPT: usize = 16;

// A world, and the entries that lead to it.
#[derive(Drop)]
struct Stop<'m> {
    entries: Vec<u32>,
    outlook: Outlook<'m>,
}

impl<'m> Model for Stop<'m> {
    ghost use Rattle.l4_outlooks.specs.Inner.Foreseen.{IsLed};
    ghost use Rattle.l4_all_endings.specs.Inner.Way.{Stop};

    ghost Value = { Stop };

    ghost view = { λ s. record { machine = s.outlook.machine; entries = s.entries.items } };

    ghost invariant = { λ s. IsLed s.outlook.machine s.entries.items s.outlook };
}

impl<'m> Stop<'m> {
    // The world that entries lead to.
    fn new(alloc: Global, entries: &[u32], outlook: &Outlook<'m>) -> Result<Stop<'m>, NoMemory>
        requires { IsLed outlook.now.machine entries.now outlook.now }
        ensures { IfOk result (λ stop. stop.machine ≡ outlook.now.machine) }
    {
        let outlook = outlook.try_clone(alloc)?;
        let mut kept = Vec::new(alloc);
        kept.extend_from_slice(entries)?;
        Ok(Stop {
            entries: kept,
            outlook,
        })
    }

    // How many entries these are.
    fn len(&self) -> usize
        ensures { result ≡ length self.now.entries }
    {
        self.entries.len()
    }

    // Whether other entries begin with these.
    fn is_on_way(&self, entries: &[u32]) -> bool
        ensures inside { result ≡ true → length self.now.entries ≤ length entries.now }
        ensures first { result ≡ true →
            take (length self.now.entries) entries.now ≡ self.now.entries }
    {
        entries.starts_with(self.entries.as_slice())
    }

    // A copy of the world.
    fn outlook(&self, alloc: Global) -> Result<Outlook<'m>, NoMemory>
        ensures { IfOk result (IsLed self.now.machine self.now.entries) }
    {
        self.outlook.try_clone(alloc)
    }
}

/// The way to the worlds that a search asks for. A list of entries begins mostly as the one before
/// it, so some worlds on the way are kept, and those behind them need not be reached from the
/// opening. They lie the nearer to each other, the nearer they are to the end of the way.
#[derive(Drop)]
pub struct Way<'m> {
    machine: &'m Machine,
    stops: Vec<Stop<'m>>,
}

impl<'m> Model for Way<'m> {
    ghost use Rattle.l4_model.specs.Machine.{Machine as ModelMachine};
    ghost use Rattle.l4_all_endings.specs.Inner.Way.{AreStops};

    ghost Value = { ModelMachine };

    ghost view = { λ w. w.machine.now };

    ghost invariant = { λ w. AreStops w.machine.now w.stops.items };
}

impl<'m> Way<'m> {
    /// The opening of a machine alone.
    ///
    /// `NoMemory`: memory was refused.
    pub fn new(alloc: Global, machine: &'m Machine) -> Result<Way<'m>, NoMemory>
        ensures { IfOk result (λ way. way ≡ machine.now) }
    {
        Ok(Way {
            machine,
            stops: Vec::new(alloc),
        })
    }

    /// The world that entries lead to.
    ///
    /// `NoMemory`: memory was refused.
    pub fn outlook(&mut self, alloc: Global, entries: &[u32]) -> Result<Outlook<'m>, NoMemory>
        requires leads { IsSome (world_after self.old entries.now) }
        requires few { length entries.now < 2 ^ 20 }
        ensures led { IfOk result (IsLed self.old entries.now) }
        ensures same { self.new ≡ self.old }
    {
        let (nearest, begun) = self.nearest(alloc, entries)?;
        let mut outlook = nearest;
        for place in begun..entries.len() {
            outlook.take(entries[place])?;
            self.keep(alloc, entries, place + 1, &outlook)?;
        }
        Ok(outlook)
    }

    // The last kept world on the way to that which entries lead to, or the opening, and how many of
    // them lead to it. Those behind it are kept no longer.
    fn nearest(&mut self, alloc: Global, entries: &[u32]) -> Result<(Outlook<'m>, usize), NoMemory>
        ensures on_way { IfOk result (λ p. IsOnWay self.old entries.now p.0 p.1) }
        ensures same { self.new ≡ self.old }
    {
        while let Some(stop) = self.stops.last() {
            if stop.is_on_way(entries) {
                return Ok((stop.outlook(alloc)?, stop.len()));
            }
            self.stops.pop();
        }
        Ok((Outlook::new(alloc, self.machine)?, 0))
    }

    // Keeps the world that so many of the entries lead to, unless it is near to their end, or to one
    // that is kept.
    fn keep(
        &mut self,
        alloc: Global,
        entries: &[u32],
        count: usize,
        outlook: &Outlook<'m>,
    ) -> Result<(), NoMemory>
        requires inside { count ≤ length entries.now }
        requires led { IsLed self.old (take count entries.now) outlook.now }
        ensures { self.new ≡ self.old }
    {
        let left = entries.len() - count;
        if left < NEAREST || count.saturating_sub(self.last_len()) < left {
            return Ok(());
        }
        let stop = Stop::new(alloc, &entries[..count], outlook)?;
        self.stops.reserve(1)?;
        let kept = self.stops.len();
        self.stops.truncate(if kept < MOST_KEPT { kept } else { 0 });
        self.stops.push_reserved(stop);
        Ok(())
    }

    // How many entries lead to the last kept world.
    fn last_len(&self) -> usize {
        match self.stops.last() {
            Some(stop) => stop.len(),
            None => 0,
        }
    }
}
