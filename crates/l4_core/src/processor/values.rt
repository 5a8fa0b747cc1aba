//! Turns, ticks and letters that return their steps and letters as values. A processor at work
//! writes them into its log, and calls none of these.
ghost use Rattle.std.specs.Prelude.{◌≡◌, ◌↔◌, ◌⊎◌, IfErr, IfOk, IsErrOf, IsSome, None, OnErr, []};
ghost use Rattle.std.specs.Prelude.{false, true};
ghost use Rattle.l4_core_model.specs.Mail.{handle};
ghost use Rattle.l4_core_model.specs.Turns.{advance, can_stamp};
ghost use Rattle.l4_core.specs.Inner.Values.{IsToldEvent, Turned};

use crate::event_buffer::{EventBuffer, EventSteps, Letters};
use crate::processor::{Core, Fault};
use l4_types::letters::Letter;
use l4_types::steps::Event;

/// What a turn of a processor did.
#[derive(Drop)]
pub enum Turn {
    /// An event, and the letters that it posts, each with the processor that it goes to.
    Did { event: Event, letters: Letters },
    /// There is nothing to do.
    Idle,
}

impl Core<'_> {
    /// The core's turn, as `turn_into` takes it. Condition: `can_stamp(0)`.
    pub fn turn(&mut self) -> Turn
        requires { can_stamp self.old.local 0 ≡ true }
        ensures { Turned self.old self.new result }
    {
        let mut buffer = EventBuffer::new(EventSteps::new());
        let Some(stamp) = self.turn_into(&mut buffer) else {
            return Turn::Idle;
        };
        let (event, letters) = buffer.into_event(stamp);
        Turn::Did { event, letters }
    }

    /// Handles a letter from another processor, as `handle_into` does.
    ///
    /// `Mail`: the letter is not lawful here. `Stamp`: else, where the next stamp would reach 2^62.
    /// Nothing is changed then.
    pub fn handle(&mut self, letter: &Letter) -> Result<(Event, Letters), Fault>
        ensures ok { IfOk result (λ r.
            IsToldEvent
            (handle self.old.machine self.old.cpu self.old.local
            letter.now) self.old self.new r.0 r.1.items) }
        ensures err { OnErr result (self.new ≡ self.old) }
        ensures faults { IfErr result (λ fault. (fault ≡ Fault.Mail) ⊎ (fault ≡ Fault.Stamp)) }
        ensures mail { IsErrOf result Fault.Mail ↔
            (handle self.old.machine self.old.cpu self.old.local letter.now ≡ None) }
        ensures stamp { IsErrOf result Fault.Stamp ↔
            (IsSome (handle self.old.machine self.old.cpu self.old.local letter.now) ×
            (can_stamp self.old.local letter.now.stamp ≡ false)) }
    {
        let mut buffer = EventBuffer::new(EventSteps::new());
        let stamp = self.handle_into(&letter.borrowed(), &mut buffer)?;
        Ok(buffer.into_event(stamp))
    }

    /// Advances the clock to this value, in ticks, as `advance_into` does. A tick posts no letters.
    ///
    /// `Clock`: the value is not above the clock, or not below 2^62. `Stamp`: else, where the next
    /// stamp would reach 2^62. Nothing is changed then.
    pub fn advance(&mut self, to: u64) -> Result<Event, Fault>
        ensures ok { IfOk result (λ event.
            IsToldEvent
            (advance self.old.machine self.old.cpu to self.old.local) self.old self.new event []) }
        ensures err { OnErr result (self.new ≡ self.old) }
        ensures faults { IfErr result (λ fault. (fault ≡ Fault.Clock) ⊎ (fault ≡ Fault.Stamp)) }
        ensures clock { IsErrOf result Fault.Clock ↔
            (advance self.old.machine self.old.cpu to self.old.local ≡ None) }
        ensures stamp { IsErrOf result Fault.Stamp ↔
            (IsSome (advance self.old.machine self.old.cpu to self.old.local) ×
            (can_stamp self.old.local 0 ≡ false)) }
    {
        let mut buffer = EventBuffer::new(EventSteps::new());
        let stamp = self.advance_into(to, &mut buffer)?;
        let (event, _letters) = buffer.into_event(stamp);
        Ok(event)
    }
}
