//! The logs of processors that have finished.
ghost use Rattle.l4_machine.specs.Gathers.{HaveNumbers};
ghost use Rattle.l4_machine.specs.Inner.Rising.{HaveRisingLogs, HaveRisingLogs-prop};

use crate::merging::tell_merged;
use crate::searching::waiting_sends;
use l4_history::history::History;
use l4_proc::processor::Processor;
use l4_replay::Listener;
use l4_replay::waiting::Search;
use l4_script::machine::Machine;
use l4_types::errors::NoMemory;
use l4_types::ids::ThreadId;
use l4_types::steps::Name;
use std::alloc::Global;

/// All processors of a machine, with what they have done in their logs.
#[derive(Drop)]
pub struct Logs<'m> {
    machine: &'m Machine,
    processors: Vec<Processor<'m>>,
    ghost rising: { HaveRisingLogs machine.now processors.items } by { HaveRisingLogs-prop machine.now processors.items },
    ghost numbers: { HaveNumbers machine.now.cpus processors.items },
}

impl<'m> Logs<'m> {
    ghost use Rattle.std.specs.Prelude.{◌≡◌, IfOk, OnOk, filter_map};
    ghost use Rattle.l4_machine.specs.Gathers.{merged_steps, AreOfOne};
    ghost use Rattle.l4_replay.specs.Inner.Waiting.{sought, AreBegunOnce, IsSearch};

    /// The logs of all processors of a machine.
    pub(crate) fn new(machine: &'m Machine, processors: Vec<Processor<'m>>) -> Logs<'m>
        requires one { AreOfOne machine.now processors.items }
        requires numbers { HaveNumbers machine.now.cpus processors.items }
        ensures machine { result.machine.now ≡ machine.now }
        ensures processors { result.processors.items ≡ processors.entry.items }
    {
        Logs {
            machine,
            processors,
        }
    }

    /// Tells a listener the steps of all logs, in order of stamp, and of equal ones by processor.
    pub(crate) fn tell<T: Listener>(&self, alloc: Global, listener: &mut T) -> Result<(), NoMemory>
        ensures { OnOk result (T.hears listener.old
            (merged_steps self.now.machine.now self.now.processors.items) listener.new) }
    {
        tell_merged(alloc, self.machine, self.processors.as_slice(), listener)
    }

    /// These steps in compact form.
    pub(crate) fn to_history(&self, alloc: Global) -> Result<History, NoMemory>
        ensures { IfOk result (λ history.
            history.steps ≡ merged_steps self.now.machine.now self.now.processors.items) }
    {
        let mut history = History::new(alloc);
        self.tell(alloc, &mut history)?;
        Ok(history)
    }

    /// The undecided sends that these steps begin, in their order.
    pub(crate) fn waiting(
        &self,
        alloc: Global,
        search: &Search<'_>,
    ) -> Result<Vec<(Name, ThreadId)>, NoMemory>
        requires search { IsSearch search.now }
        requires once { AreBegunOnce (merged_steps self.now.machine.now self.now.processors.items) }
        ensures { IfOk result (λ sends.
            sends.items ≡
            filter_map (sought search.now)
            (merged_steps self.now.machine.now self.now.processors.items)) }
    {
        waiting_sends(alloc, self.machine, self.processors.as_slice(), search)
    }
}
