//! The clock of a processor advances.
ghost use Rattle.std.specs.Prelude.{◌≡◌, ◌↔◌, ◌⊎◌, IfErr, IfOk, IsErrOf, IsSome, None, OnErr};
ghost use Rattle.std.specs.Prelude.{false};
ghost use Rattle.l4_core_model.specs.Turns.{advance, can_stamp};
ghost use Rattle.l4_core.specs.EventBuffers.{IsOpen};
ghost use Rattle.l4_core.specs.Inner.Turning.{IsEvent};

use crate::event_buffer::EventBuffer;
use crate::processor::{Core, Fault};
use l4_history::sink::Sink;
use l4_types::step_ref::StepRef;
use l4_types::steps::{CLOCKS, Tick};

impl Core<'_> {
    /// Advances the clock to this value, in ticks. Returns the stamp of the event.
    /// `Clock`: the value is not above the clock, or not below 2^62. `Stamp`: else, where the next
    /// stamp would reach 2^62. Nothing is changed then. Condition: `buffer` has begun an event that
    /// has no step yet.
    pub fn advance_into<S: Sink>(
        &mut self,
        to: u64,
        buffer: &mut EventBuffer<S>,
    ) -> Result<u64, Fault>
        requires open { IsOpen buffer.old }
        ensures ok { IfOk result (λ stamp.
            IsEvent
            (advance self.old.machine self.old.cpu to self.old.local)
            self.old self.new buffer.old buffer.new stamp) }
        ensures err { OnErr result ((self.new ≡ self.old) × (buffer.new ≡ buffer.old)) }
        ensures faults { IfErr result (λ fault. (fault ≡ Fault.Clock) ⊎ (fault ≡ Fault.Stamp)) }
        ensures clock { IsErrOf result Fault.Clock ↔
            (advance self.old.machine self.old.cpu to self.old.local ≡ None) }
        ensures stamp { IsErrOf result Fault.Stamp ↔
            (IsSome (advance self.old.machine self.old.cpu to self.old.local) ×
            (can_stamp self.old.local 0 ≡ false)) }
    {
        if to <= self.clock() || to >= CLOCKS {
            return Err(Fault::Clock);
        }
        if !self.can_stamp(0) {
            return Err(Fault::Stamp);
        }
        let stamp = self.open(0);
        let tick = Tick::new(self.known.cpu(), to).unwrap();
        buffer.emit(StepRef::Tick(tick));
        let known = &mut self.known;
        known.clock = to;
        Ok(stamp)
    }
}
