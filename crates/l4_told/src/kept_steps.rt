//! The steps that are kept until a listener hears them.
ghost use Rattle.std.specs.Prelude.{◌≡◌, ◌≤◌, [], IfOk, OnOk, drop, false, length};
ghost use Rattle.l4_core.specs.EventBuffers.{IsOpen};
ghost use Rattle.l4_told.specs.Inner.Kept.{begins, steps_in};

use l4_core::event_buffer::EventBuffer;
use l4_history::history::History;
use l4_replay::Listener;
use l4_types::errors::NoMemory;
use l4_types::ids::ThreadId;
use l4_types::step_ref::StepRef;
use l4_types::steps::Name;
use std::alloc::Global;

// So many steps are kept until they are told.
const MOST_UNTOLD: usize = 131_072;

/// The steps of a run that are kept until a listener hears them.
#[derive(Drop)]
pub(crate) struct KeptSteps {
    // The first of these steps were told. They begin the sends that were undecided when steps were
    // told last, for the search for those that are undecided later.
    pub(crate) buffer: EventBuffer<History>,
    marks: Marks,
}

// What was told of the steps of a run.
#[derive(Drop)]
struct Marks {
    // Where the steps begin that are to be told.
    untold: usize,
    // From so many steps on it is time to tell them.
    due: usize,
    // Whether all steps that were told are kept.
    has_all: bool,
}

impl KeptSteps {
    /// No steps. It takes no memory.
    pub(crate) fn new(alloc: Global) -> KeptSteps
        ensures none { steps_in result ≡ [] }
        ensures untold { result.marks.untold ≡ 0 }
    {
        KeptSteps {
            buffer: EventBuffer::new(History::new(alloc)),
            marks: Marks {
                untold: 0,
                due: MOST_UNTOLD,
                has_all: true,
            },
        }
    }

    /// Whether there are so many that it is time to tell them.
    #[inline(always)]
    pub(crate) fn are_many(&self) -> bool {
        self.buffer.start() >= self.marks.due
    }

    /// Whether all steps that were told are kept.
    pub(crate) fn has_all(&self) -> bool
        ensures { result ≡ self.now.marks.has_all }
    {
        self.marks.has_all
    }

    /// Makes room for the steps of an event, and begins it.
    #[inline(always)]
    pub(crate) fn begin(&mut self) -> Result<(), NoMemory>
        ensures same { OnOk result (steps_in self.new ≡ steps_in self.old) }
        ensures open { OnOk result (IsOpen self.new.buffer) }
        ensures marks { self.new.marks ≡ self.old.marks }
    {
        self.buffer.begin()
    }

    /// All of them.
    pub(crate) fn history(&self) -> &History
        ensures { result.now.steps ≡ steps_in self.now }
    {
        self.buffer.sink()
    }

    /// All of them. Nothing is copied.
    pub(crate) fn into_history(self) -> History
        ensures { result.steps ≡ steps_in self }
    {
        self.buffer.into_sink()
    }

    /// Tells those that are to be told.
    pub(crate) fn tell<L: Listener>(&self, listener: &mut L) -> Result<(), NoMemory>
        requires { self.now.marks.untold ≤ length (steps_in self.now) }
        ensures { OnOk result
            (L.hears listener.old (drop self.now.marks.untold (steps_in self.now)) listener.new) }
    {
        let history = self.history();
        listener.hear(history.steps_between(self.marks.untold, history.len()))
    }

    /// Keeps what begins these sends, and nothing else.
    pub(crate) fn forget(
        &mut self,
        alloc: Global,
        undecided: &[(Name, ThreadId)],
    ) -> Result<(), NoMemory>
        ensures steps { OnOk result (steps_in self.new ≡ begins undecided.now) }
        ensures untold { OnOk result (self.new.marks.untold ≡ length (begins undecided.now)) }
        ensures all { OnOk result (self.new.marks.has_all ≡ false) }
    {
        let begun = begun_history(alloc, undecided)?;
        self.set_untold(begun.len());
        self.marks.has_all = false;
        self.buffer = EventBuffer::new(begun);
        Ok(())
    }

    /// Keeps all, as those that were told.
    pub(crate) fn keep(&mut self)
        ensures buffer { self.new.buffer ≡ self.old.buffer }
        ensures untold { self.new.marks.untold ≡ length (steps_in self.old) }
        ensures all { self.new.marks.has_all ≡ self.old.marks.has_all }
    {
        self.set_untold(self.history().len());
    }

    // The steps from this place on are to be told.
    fn set_untold(&mut self, place: usize)
        ensures untold { self.new.marks.untold ≡ place }
        ensures all { self.new.marks.has_all ≡ self.old.marks.has_all }
        ensures buffer { self.new.buffer ≡ self.old.buffer }
    {
        self.marks.untold = place;
        self.marks.due = place.saturating_add(MOST_UNTOLD);
    }
}

// The steps that begin these sends.
fn begun_history(alloc: Global, sends: &[(Name, ThreadId)]) -> Result<History, NoMemory>
    ensures { IfOk result (λ history. history.steps ≡ begins sends.now) }
{
    let mut history = History::new(alloc);
    for (name, _) in sends {
        history.reserve()?;
        history.push(StepRef::Begin(*name));
    }
    Ok(history)
}
