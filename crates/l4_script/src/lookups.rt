//! Looking declared threads up.
ghost use Rattle.std.specs.Prelude.{◌≡◌, ◌<◌, is_some, unwrap_or, IsSome, slice_get};
ghost use Rattle.std.specs.Option.{option_copied, option_map};
ghost use Rattle.l4_model.specs.Machine.{End, declaration_of, instruction_at, most_instructions};
ghost use Rattle.l4_model.specs.Machine.{same_space};
ghost use Rattle.l4_model.specs.Rules.{is_admitted, permitted};
ghost use Rattle.l4_types.specs.StepView.{order_kind_of};
ghost use Rattle.l4_script.specs.Inner.Scripts.{instr_of};

use crate::instructions::Instr;
use crate::machine::{Declaration, Machine};
use l4_types::ids::{GlobalId, ThreadId};
use l4_types::steps::OrderKind;

impl Declaration {
    /// The instruction at a place of the script, counted from 0. None past its end, which is an
    /// `end`.
    pub fn instruction(&self, place: usize) -> Option<&Instr>
        ensures value { unwrap_or (option_map instr_of (option_copied result)) End ≡
            instruction_at self.now.script place }
        ensures within { IsSome result → place < most_instructions }
    {
        self.script().get(place)
    }
}

impl Machine {
    // What is declared of a thread.
    fn declaration_of(&self, id: GlobalId) -> Option<&Declaration>
        ensures { option_copied result ≡ declaration_of self.now id }
    {
        let place = self.place_of(id)?;
        self.thread(place)
    }

    // The thread at a place.
    fn thread(&self, place: usize) -> Option<&Declaration>
        ensures { option_copied result ≡ slice_get self.now.threads place }
    {
        self.threads().get(place)
    }

    /// Whether two threads are declared, and of one address space.
    pub fn same_space(&self, a: GlobalId, b: GlobalId) -> bool
        ensures { result ≡ same_space self.now a b }
    {
        match (self.declaration_of(a), self.declaration_of(b)) {
            (Some(a), Some(b)) => a.space() == b.space(),
            _ => false,
        }
    }

    /// Whether a sender may show this originator: a declared thread of its address space (manual:
    /// Ipc, `VirtualSender`).
    pub fn may_show(&self, sender: GlobalId, originator: ThreadId) -> bool
        ensures { result ≡ is_some (permitted self.now sender originator) }
    {
        match originator.as_global() {
            Some(originator) => self.same_space(originator, sender),
            None => false,
        }
    }

    /// Whether an order is admitted: a deletion of any declared thread, a cancellation within the
    /// caller's address space (manual: ThreadControl, ExchangeRegisters).
    pub fn admits(&self, caller: GlobalId, target: GlobalId, what: OrderKind) -> bool
        ensures { result ≡ is_admitted self.now caller target (order_kind_of what) }
    {
        match what {
            OrderKind::Delete => self.place_of(target).is_some(),
            _ => self.same_space(caller, target),
        }
    }
}
