//! A processor without its port.
ghost use Rattle.std.specs.Prelude.{◌≡◌, ◌⊎◌, ◌↔◌, false, IfErr, IfOk, IsErrOf, IsSome, None};
ghost use Rattle.std.specs.Prelude.{OnErr};
ghost use Rattle.l4_core_model.specs.Mail.{handle};
ghost use Rattle.l4_core_model.specs.Turns.{can_stamp, turn};
ghost use Rattle.l4_core.specs.EventBuffers.{IsOpen};
ghost use Rattle.l4_core.specs.Inner.Turning.{IsEvent};

use crate::choice::{CORE, letter_number, tick_number};
use crate::log::Log;
use crate::stops::{ProcFault, Stop};
use l4_core::event_buffer::EventBuffer;
use l4_core::processor::{Core, Fault};
use l4_history::history::History;
use l4_types::letter_ref::LetterRef;
use l4_types::letters::Letter;
use l4_types::steps::CLOCKS;
use std::alloc::Global;

/// A processor without its port: its core, its log, and the letter in hand.
#[derive(Drop)]
pub struct Worker<'m> {
    pub(crate) core: Core<'m>,
    pub(crate) log: Log,
    // A letter that was taken and is not yet handled, with the processor that posted it.
    pub(crate) hand: Option<(u8, Letter)>,
    // Why its last work stopped, `Used` if it has not worked yet.
    pub(crate) stop: Stop,
}

// Handles a letter.
fn handle(
    core: &mut Core<'_>,
    letter: &LetterRef<'_>,
    buffer: &mut EventBuffer<History>,
) -> Result<u64, Stop>
    requires open { IsOpen buffer.old }
    ensures ok { IfOk result (λ stamp.
        IsEvent
        (handle core.old.machine core.old.cpu core.old.local
        letter.now) core.old core.new buffer.old buffer.new stamp) }
    ensures err { OnErr result ((core.new ≡ core.old) × (buffer.new ≡ buffer.old)) }
    ensures mail { IsErrOf result Stop.Mail ↔
        (handle core.old.machine core.old.cpu core.old.local letter.now ≡ None) }
    ensures stamp { IsErrOf result Stop.Stamp ↔
        (IsSome (handle core.old.machine core.old.cpu core.old.local letter.now) ×
        (can_stamp core.old.local letter.now.stamp ≡ false)) }
    ensures faults { IfErr result (λ stop. (stop ≡ Stop.Mail) ⊎ (stop ≡ Stop.Stamp)) }
{
    match core.handle_into(letter, buffer) {
        Ok(stamp) => Ok(stamp),
        Err(Fault::Mail) => Err(Stop::Mail),
        Err(_) => Err(Stop::Stamp),
    }
}

// Handles a letter that has its own words. It is borrowed here, so that a turn without a letter makes
// no room for one.
#[inline(never)]
fn handle_owned(
    core: &mut Core<'_>,
    letter: &Letter,
    buffer: &mut EventBuffer<History>,
) -> Result<u64, Stop>
    requires open { IsOpen buffer.old }
    ensures ok { IfOk result (λ stamp.
        IsEvent
        (handle core.old.machine core.old.cpu core.old.local
        letter.now) core.old core.new buffer.old buffer.new stamp) }
    ensures err { OnErr result ((core.new ≡ core.old) × (buffer.new ≡ buffer.old)) }
    ensures mail { IsErrOf result Stop.Mail ↔
        (handle core.old.machine core.old.cpu core.old.local letter.now ≡ None) }
    ensures stamp { IsErrOf result Stop.Stamp ↔
        (IsSome (handle core.old.machine core.old.cpu core.old.local letter.now) ×
        (can_stamp core.old.local letter.now.stamp ≡ false)) }
    ensures faults { IfErr result (λ stop. (stop ≡ Stop.Mail) ⊎ (stop ≡ Stop.Stamp)) }
{
    handle(core, &letter.borrowed(), buffer)
}

// Takes the core's own turn.
fn turn(core: &mut Core<'_>, buffer: &mut EventBuffer<History>) -> Result<u64, Stop>
    requires open { IsOpen buffer.old }
    ensures ok { IfOk result (λ stamp.
        IsEvent
        (turn core.old.machine core.old.cpu core.old.local)
        core.old core.new buffer.old buffer.new stamp) }
    ensures err { OnErr result ((core.new ≡ core.old) × (buffer.new ≡ buffer.old)) }
    ensures idle { IsErrOf result Stop.Idle ↔
        (turn core.old.machine core.old.cpu core.old.local ≡ None) }
    ensures stamp { IsErrOf result Stop.Stamp ↔
        (IsSome (turn core.old.machine core.old.cpu core.old.local) ×
        (can_stamp core.old.local 0 ≡ false)) }
    ensures faults { IfErr result (λ stop. (stop ≡ Stop.Idle) ⊎ (stop ≡ Stop.Stamp)) }
{
    if !core.can_stamp(0) {
        return Err(if core.busy() { Stop::Stamp } else { Stop::Idle });
    }
    match core.turn_into(buffer) {
        Some(stamp) => Ok(stamp),
        None => Err(Stop::Idle),
    }
}

impl<'m> Worker<'m> {
    ghost use Rattle.std.specs.Prelude.{ℕ, ◌≡◌, ◌↔◌, ◌<◌, [], false, true, IfErr};
    ghost use Rattle.std.specs.Prelude.{IfOk, IsErrOf, IsSome, None, OnErr, OnOk, is_some};
    ghost use Rattle.l4_core_model.specs.Runs.{IsMachine};
    ghost use Rattle.l4_core_model.specs.Turns.{advance, can_stamp};
    ghost use Rattle.l4_core.specs.EventBuffers.{IsOpen};
    ghost use Rattle.l4_core.specs.Inner.Turning.{IsEvent};
    ghost use Rattle.l4_merge.specs.Transitions.{action_of};
    ghost use Rattle.l4_proc.specs.Choices.{action_in};
    ghost use Rattle.l4_proc.specs.Inner.Events.{event_in_hand, IsRefused};
    ghost use Rattle.l4_proc.specs.Logs.{all_steps};
    ghost use Rattle.l4_proc.specs.Working.{HasDone, HasTakenTurn, HasTickedTo, IsSameWorker};

    /// A processor that has done nothing, without a port. It takes no memory.
    pub fn new(alloc: Global, core: Core<'m>) -> Worker<'m>
        ensures core { result.core ≡ core.entry }
        ensures cpu { result.log.cpu ≡ core.entry.cpu }
        ensures ends { result.log.ends.items ≡ [] }
        ensures ticks { result.log.ticks ≡ 0 }
        ensures steps { all_steps result.log.buffer ≡ [] }
        ensures hand { result.hand ≡ None }
        ensures stop { result.stop ≡ Stop.Used }
    {
        let log = Log::new(alloc, core.cpu());
        Worker {
            core,
            log,
            hand: None,
            stop: Stop::Used,
        }
    }

    /// What the processor knows.
    pub fn core(&self) -> &Core<'m>
        ensures { result.now ≡ self.now.core }
    {
        &self.core
    }

    /// The events so far.
    pub fn log(&self) -> &Log
        ensures { result.now ≡ self.now.log }
    {
        &self.log
    }

    /// Whether a letter was taken and is not yet handled.
    pub fn in_hand(&self) -> bool
        ensures { result ≡ is_some self.now.hand }
    {
        self.hand.is_some()
    }

    /// Takes a turn as the event that has begun: handles the letter in hand, else takes the core's
    /// turn. If the turn is not taken, core and letter stay.
    pub fn take_turn(&mut self) -> Result<(), Stop>
        requires open { IsOpen self.old.log.buffer }
        requires room { 0 < self.old.log.ends.room }
        ensures ok { OnOk result (HasTakenTurn self.old self.new) }
        ensures err { OnErr result (IsSameWorker self.old self.new) }
        ensures why { IfErr result (λ stop. IsRefused self.old.core self.old.hand stop) }
        ensures machine { IsMachine self.old.core.machine }
        ensures cpu { self.old.core.cpu < self.old.core.machine.cpus }
    {
        let choice = self.next_choice();
        let stamp = self.go_on()?;
        self.log.end_turn(stamp, choice);
        Ok(())
    }

    // The number of the next turn: it handles the letter in hand, else it is the core's.
    fn next_choice(&self) -> u64
        ensures { (cpu : ℕ) → action_in cpu result ≡
            action_of cpu (event_in_hand self.now.hand) }
    {
        match &self.hand {
            Some((from, _)) => letter_number(*from),
            None => CORE,
        }
    }

    // Handles the letter in hand, else takes the core's turn.
    fn go_on(&mut self) -> Result<u64, Stop>
        requires open { IsOpen self.old.log.buffer }
        ensures ok { IfOk result (λ stamp. HasDone self.old self.new stamp) }
        ensures err { OnErr result (IsSameWorker self.old self.new) }
        ensures why { IfErr result (λ stop. IsRefused self.old.core self.old.hand stop) }
        ensures machine { IsMachine self.old.core.machine }
        ensures cpu { self.old.core.cpu < self.old.core.machine.cpus }
    {
        self.core.facts();
        match &self.hand {
            Some((_, letter)) => {
                let stamp = handle_owned(&mut self.core, letter, &mut self.log.buffer)?;
                self.hand = None;
                Ok(stamp)
            }
            None => turn(&mut self.core, &mut self.log.buffer),
        }
    }

    /// Advances the clock to this value, in ticks: one event more, which posts and takes no letter.
    ///
    /// `Clock`: the value is not above the clock, or not below 2^62. `Stamp`: else, where the next
    /// stamp would reach 2^62. `NoMemory`: else, where memory is refused. Nothing is changed then.
    pub fn tick(&mut self, to: u64) -> Result<(), ProcFault>
        ensures ok { OnOk result (HasTickedTo to self.old self.new) }
        ensures err { OnErr result (IsSameWorker self.old self.new) }
        ensures stop { self.new.stop ≡ self.old.stop }
        ensures clock { IsErrOf result ProcFault.Clock ↔
            (advance self.old.core.machine self.old.core.cpu to self.old.core.local ≡ None) }
        ensures stamp { IsErrOf result ProcFault.Stamp ↔
            (IsSome (advance self.old.core.machine self.old.core.cpu to self.old.core.local) ×
            (can_stamp self.old.core.local 0 ≡ false)) }
    {
        if to <= self.core.clock() || to >= CLOCKS {
            return Err(ProcFault::Clock);
        }
        if !self.core.can_stamp(0) {
            return Err(ProcFault::Stamp);
        }
        self.log.begin()?;
        let stamp = self.advance(to);
        self.log.end_tick(stamp, tick_number(to));
        Ok(())
    }

    // Advances the clock to this value, if it may.
    fn advance(&mut self, to: u64) -> u64
        requires open { IsOpen self.old.log.buffer }
        requires can { IsSome
            (advance self.old.core.machine self.old.core.cpu to self.old.core.local) }
        requires stamp { can_stamp self.old.core.local 0 ≡ true }
        ensures event { IsEvent
            (advance self.old.core.machine self.old.core.cpu to self.old.core.local)
            self.old.core self.new.core self.old.log.buffer self.new.log.buffer result }
        ensures hand { self.new.hand ≡ self.old.hand }
        ensures stop { self.new.stop ≡ self.old.stop }
        ensures log { (self.new.log.cpu ≡ self.old.log.cpu) ×
            (self.new.log.ends ≡ self.old.log.ends) × (self.new.log.ticks ≡ self.old.log.ticks) }
    {
        self.core.advance_into(to, &mut self.log.buffer).unwrap()
    }
}
