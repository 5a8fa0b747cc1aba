//! A processor: its turns and its clock, with the mail.
ghost use Rattle.std.specs.Prelude.{ℕ, ◌≡◌, [], IfNone, IfSome};
ghost use Rattle.l4_mail.specs.Ports.{here_from, kept_from, HasTaken as HasTakenFrom, IsAsBefore};
ghost use Rattle.l4_proc.specs.Whole.{IsWhole};

use crate::gate::Gate;
use crate::log::Log;
use crate::stops::{ProcFault, Stop};
use crate::worker::Worker;
use l4_core::processor::Core;
use l4_mail::ports::Port;
use l4_types::errors::NoMemory;
use l4_types::letters::Letter;
use std::alloc::Global;

/// A processor of a machine: its port to the others, and what does its work.
#[derive(Drop)]
pub struct Processor<'m> {
    pub(crate) port: Port,
    pub(crate) worker: Worker<'m>,
    ghost whole: { IsWhole port worker },
}

impl<'m> Processor<'m> {
    ghost use Rattle.std.specs.Prelude.{ℕ, ◌≡◌, [], ◌↔◌, ◌<◌, ◌≤◌, ◌+◌, ◌^◌, false, IfErr, IsErrOf};
    ghost use Rattle.std.specs.Prelude.{IsSome, None, OnErr, OnOk, is_some, length};
    ghost use Rattle.std.specs.List.{AllByRecursion};
    ghost use Rattle.l4_mail.specs.Ports.{room_to, HasWayTo};
    ghost use Rattle.l4_core_model.specs.Turns.{advance, can_stamp};
    ghost use Rattle.l4_merge.specs.LocalTraces.{empty_past, Extends, HasTurned};
    ghost use Rattle.l4_proc.specs.Logs.{events, IsClosed};
    ghost use Rattle.l4_proc.specs.Working.{past, turns_of, HasGoneOn, HasPostedOwn, HasStayed};
    ghost use Rattle.l4_proc.specs.Working.{HasTaken, HasTakenUpTo, HasTicked, HasTurnedMailFirst};
    ghost use Rattle.l4_proc.specs.Working.{IsIdle, IsReady, IsStopped, IsUnready, KeepsHand};
    ghost use Rattle.l4_proc.specs.Whole.{IsFreshPort, IsPortOf};

    /// A processor that has done nothing, with its port, by which no letter has gone.
    pub fn new(alloc: Global, core: Core<'m>, port: Port) -> Processor<'m>
        requires port_of { IsPortOf port core }
        requires fresh { IsFreshPort port }
        ensures parts { (result.port ≡ port) × (result.worker.core ≡ core.entry) ×
            (result.worker.hand ≡ None) }
        ensures opened { Extends core.entry.machine core.entry.cpu (empty_past core.entry.local)
            (past result) }
        ensures turns { turns_of result ≡ 0 }
        ensures log { events result.worker.log ≡ [] }
        ensures stop { result.worker.stop ≡ Stop.Used }
    {
        Processor {
            port,
            worker: Worker::new(alloc, core),
        }
    }

    /// The number of the processor.
    pub fn cpu(&self) -> u8
        ensures { result ≡ self.now.worker.core.cpu }
    {
        self.port.cpu()
    }

    /// What the processor knows.
    pub fn core(&self) -> &Core<'m>
        ensures { result.now ≡ self.now.worker.core }
    {
        self.worker.core()
    }

    /// The events so far.
    pub fn log(&self) -> &Log
        ensures log { result.now ≡ self.now.worker.log }
        ensures closed { IsClosed result.now }
    {
        self.worker.log()
    }

    /// Whether a letter was taken and is not yet handled.
    pub fn in_hand(&self) -> bool
        ensures { result ≡ is_some self.now.worker.hand }
    {
        self.worker.in_hand()
    }

    /// How many turns `work` took, below 2^63. Ticks are none.
    pub fn turns(&self) -> u64
        ensures value { result ≡ turns_of self.now }
        ensures fits { result < 2 ^ 63 }
    {
        self.worker.log.turns()
    }

    /// Whether it has something to do: a letter in hand or one that its port keeps, or a turn of
    /// its own. Rings are not looked at.
    pub fn has_work(&self) -> bool
        ensures { (result ≡ false) ↔ IsIdle self.now }
    {
        self.in_hand() || self.port.keeps_mail() || self.worker.core.busy()
    }

    /// Why its last `work` stopped, `Used` if it has not worked yet.
    pub fn stop(&self) -> Stop
        ensures { result ≡ self.now.worker.stop }
    {
        self.worker.stop
    }

    /// Takes the processor apart, so that its port can come to rest with those of the others.
    pub fn split(self) -> (Port, Worker<'m>)
        ensures parts { (result.0 ≡ self.entry.port) × (result.1 ≡ self.entry.worker) }
        ensures whole { IsWhole self.entry.port self.entry.worker }
    {
        (self.port, self.worker)
    }

    /// The log alone.
    pub fn into_log(self) -> Log
        ensures log { result ≡ self.entry.worker.log }
        ensures closed { IsClosed result }
    {
        let worker = self.worker;
        worker.log
    }

    /// Puts a processor together again, of a port and what does its work. Condition: they are of
    /// one processor, and what the port has posted and taken is as at the split.
    pub fn join(port: Port, worker: Worker<'m>) -> Processor<'m>
        requires { IsWhole port worker }
        ensures { (result.port ≡ port) × (result.worker ≡ worker.entry) }
    {
        Processor { port, worker }
    }

    /// Takes at most `turns` turns. A turn handles the letter in hand, else the next letter from
    /// the port; if there is none, it is the core's turn. The gate is asked before each attempt.
    ///
    /// `Used`: all were taken. `Idle`: there is nothing to do, and no letter was seen. `NoMemory`:
    /// memory was refused. `Mail`: the letter in hand is not lawful here. `Stamp`: the letter in
    /// hand is lawful, or there is none and the core has a turn, and the next stamp would reach
    /// 2^62. But for `Used` the last turn was not taken; a letter that was taken stays in hand, and
    /// is handled first by the next call.
    pub fn work<G: Gate>(&mut self, turns: u64, gate: &G) -> Stop
        ensures on { HasGoneOn self.old self.new }
        ensures turned { HasTurned self.old.worker.core.machine self.old.worker.core.cpu
            (past self.old) (past self.new) }
        ensures least { turns_of self.old ≤ turns_of self.new }
        ensures most { turns_of self.new ≤ turns_of self.old + turns }
        ensures used { (result ≡ Stop.Used) ↔ (turns_of self.new ≡ turns_of self.old + turns) }
        ensures ticks { self.new.worker.log.ticks ≡ self.old.worker.log.ticks }
        ensures stopped { IsStopped self.new result }
        ensures nothing { result ≡ Stop.Idle → turns_of self.new ≡ turns_of self.old →
            IsIdle self.old }
        ensures first { HasTurnedMailFirst self.old self.new }
        ensures hand { turns_of self.new ≡ turns_of self.old → KeepsHand self.old self.new }
        ensures stop { self.new.worker.stop ≡ result }
    {
        let stop = self.take_turns(turns, gate);
        self.worker.stop = stop;
        stop
    }

    // Takes at most `turns` turns. Returns why it stopped.
    fn take_turns<G: Gate>(&mut self, turns: u64, gate: &G) -> Stop
        ensures { HasTakenUpTo turns self.old self.new result }
    {
        for _ in 0..turns {
            gate.before(self.cpu(), self.turns() + 1);
            if let Err(stop) = self.take_turn() {
                return stop;
            }
        }
        Stop::Used
    }

    // Takes one turn.
    fn take_turn(&mut self) -> Result<(), Stop>
        ensures ok { OnOk result (HasTaken 1 self.old self.new) }
        ensures err { OnErr result (HasTaken 0 self.old self.new) }
        ensures stopped { IfErr result (λ stop. IsStopped self.new stop) }
        ensures nothing { IfErr result (λ stop. stop ≡ Stop.Idle → IsIdle self.old) }
        ensures unused { IfErr result (λ stop. stop ≡ Stop.Used → ⊥) }
    {
        self.get_ready()?;
        self.worker.take_turn()?;
        self.send_all();
        Ok(())
    }

    // Posts the letters of the event that has ended, and moves them on. If there are none,
    // `get_ready` has moved letters on.
    fn send_all(&mut self)
        requires ways { AllByRecursion (λ p.
            HasWayTo self.old.port p.0) self.old.worker.log.buffer.letters }
        requires room { (to : ℕ) → HasWayTo self.old.port to →
            length self.old.worker.log.buffer.letters ≤ room_to self.old.port to }
        ensures { HasPostedOwn self.old self.new }
    {
        if self.worker.log.has_letters() {
            self.post_all();
            self.port.flush();
        }
    }

    // Posts the letters of the event that has ended.
    #[inline(never)]
    fn post_all(&mut self)
        requires ways { AllByRecursion (λ p.
            HasWayTo self.old.port p.0) self.old.worker.log.buffer.letters }
        requires room { (to : ℕ) → HasWayTo self.old.port to →
            length self.old.worker.log.buffer.letters ≤ room_to self.old.port to }
        ensures { HasPostedOwn self.old self.new }
    {
        'letters: while let Some((to, letter)) = self.worker.log.take_letter() {
            self.port.post(to, letter);
        }
    }

    // Makes room for a turn, and takes the next letter, if none is in hand and one has come.
    fn get_ready(&mut self) -> Result<(), NoMemory>
        ensures ok { OnOk result (IsReady self.old self.new) }
        ensures err { OnErr result (IsUnready self.old self.new) }
    {
        self.worker.log.begin()?;
        self.port.make_ready()?;
        if self.worker.hand.is_none() && self.port.has_mail() {
            take_mail(&mut self.port, &mut self.worker.hand);
        }
        Ok(())
    }

    /// Advances the clock to this value, in ticks: one event more, which posts and takes no letter.
    ///
    /// `Clock`: the value is not above the clock, or not below 2^62. `Stamp`: else, where the next
    /// stamp would reach 2^62. `NoMemory`: else, where memory is refused. Nothing is changed then.
    pub fn tick(&mut self, to: u64) -> Result<(), ProcFault>
        ensures ok { OnOk result (HasTicked to self.old self.new) }
        ensures err { OnErr result (HasStayed self.old self.new) }
        ensures clock { IsErrOf result ProcFault.Clock ↔
            (advance self.old.worker.core.machine self.old.worker.core.cpu
            to self.old.worker.core.local ≡ None) }
        ensures stamp { IsErrOf result ProcFault.Stamp ↔
            (IsSome
            (advance self.old.worker.core.machine self.old.worker.core.cpu
            to self.old.worker.core.local) × (can_stamp self.old.worker.core.local 0 ≡ false)) }
    {
        self.worker.tick(to)
    }
}

// Takes the next letter of the port in hand. It is a call of its own: a turn without a letter is
// spared the room for one.
#[inline(never)]
fn take_mail(port: &mut Port, hand: &mut Option<(u8, Letter)>)
    ensures some { IfSome hand.new (λ next. HasTakenFrom port.old port.new next.0 next.1) }
    ensures none { IfNone hand.new (IsAsBefore port.old port.new) }
    ensures kept { IfNone hand.new ((from : ℕ) → kept_from port.old from ≡ []) }
    ensures here { IfNone hand.new ((from : ℕ) → here_from port.new from ≡ []) }
{
    *hand = port.take();
}
