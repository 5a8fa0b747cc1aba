//! What a report says of each thread, and how a run ends.
use crate::ids::GlobalId;
use crate::registers::Regs;

/// The state of a thread, as a report tells it.
#[derive(Clone, Copy, PartialEq, Eq, Debug)]
pub enum State {
    /// It can run its next instruction.
    Ready,
    /// It is in a send phase.
    Sending,
    /// It is in a receive phase.
    Receiving,
    /// It waits until its order is done.
    Ordering,
    /// Its script has ended. The thread is alive and runs nothing more.
    Ended,
    /// It was deleted.
    Deleted,
}

/// What a report says of one thread.
#[derive(Clone, Copy, PartialEq, Eq, Debug)]
pub struct ThreadView {
    /// The thread.
    pub id: GlobalId,
    /// Its state.
    pub state: State,
    /// Its registers.
    pub regs: Regs,
}

/// How a run, a replay or an audit ends. `Quiet`: a run or replay is at rest; after an audited
/// trace no step but a tick is possible, now or after any ticks.
#[derive(Clone, Copy, PartialEq, Eq, Debug)]
pub enum Ending {
    /// Nothing is left to do.
    Quiet,
    /// Something is left to do, for instance because the turns ran out.
    Spent,
}
