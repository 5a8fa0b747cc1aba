//! The history of an outcome.
ghost use Rattle.std.specs.Prelude.{◌≡◌, IfOk, OnOk, filter_map};
ghost use Rattle.l4_machine.specs.Outcomes.{steps_of};
ghost use Rattle.l4_replay.specs.Inner.Waiting.{sought, AreBegunOnce, IsSearch};

use crate::logs::Logs;
use l4_history::history::History;
use l4_replay::Listener;
use l4_replay::waiting::Search;
use l4_types::errors::NoMemory;
use l4_types::ids::ThreadId;
use l4_types::steps::Name;
use std::alloc::Global;

/// The history of an outcome: its steps, or the logs that they are told from on demand.
#[derive(Drop)]
pub enum RunHistory<'m> {
    /// The steps in compact form.
    Steps(History),
    /// The logs of several processors, which are merged.
    Logs(Logs<'m>),
}

impl RunHistory<'_> {
    /// Tells a listener the steps: those of a run in order of stamp, and of equal ones by
    /// processor, and those of a replay in the order told. No step is copied. `NoMemory`: memory
    /// was refused, and the listener may have heard some of them.
    pub fn tell<T: Listener>(&self, alloc: Global, listener: &mut T) -> Result<(), NoMemory>
        ensures { OnOk result (T.hears listener.old (steps_of self.now) listener.new) }
    {
        match self {
            RunHistory::Steps(history) => listener.hear(history.steps()),
            RunHistory::Logs(logs) => logs.tell(alloc, listener),
        }
    }

    /// The steps in compact form, in the same order. `NoMemory`: memory was refused, and the
    /// history is gone.
    pub fn into_history(self, alloc: Global) -> Result<History, NoMemory>
        ensures { IfOk result (λ history. history.steps ≡ steps_of self.entry) }
    {
        match self {
            RunHistory::Steps(history) => Ok(history),
            RunHistory::Logs(logs) => logs.to_history(alloc),
        }
    }

    /// The undecided sends that the steps begin, in order of beginning, with their destinations.
    pub(crate) fn waiting(
        &self,
        alloc: Global,
        search: &Search<'_>,
    ) -> Result<Vec<(Name, ThreadId)>, NoMemory>
        requires search { IsSearch search.now }
        requires once { AreBegunOnce (steps_of self.now) }
        ensures { IfOk result (λ sends.
            sends.items ≡ filter_map (sought search.now) (steps_of self.now)) }
    {
        match self {
            RunHistory::Steps(history) => search.of_history(alloc, history),
            RunHistory::Logs(logs) => logs.waiting(alloc, search),
        }
    }
}
