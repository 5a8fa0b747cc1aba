//! What hears how far a search has come.

/// What hears how far a search has come, as for a line on a terminal. Nothing that a search finds
/// depends on it.
pub trait Progress {
    /// The search has found `states` states, among them all that schedules of at most `depth`
    /// entries lead to. Neither number is lower than at the call before.
    fn looked_at(&mut self, states: usize, depth: usize);

    /// The search has ended, or memory was refused to it.
    fn ended(&mut self);
}

/// A listener that does nothing.
#[derive(Clone, Copy, Debug, PartialEq, Eq)]
pub struct Unheard;

impl Progress for Unheard {
    fn looked_at(&mut self, _states: usize, _depth: usize) {}

    fn ended(&mut self) {}
}
