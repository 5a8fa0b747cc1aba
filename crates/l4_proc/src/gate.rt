//! What is asked before a processor tries a turn.

/// What is asked each time before a processor tries to take a turn, on the host thread on which
/// that processor works. It may hold the processor back for as long as it likes, and no promise of
/// a run rests on it.
pub trait Gate {
    /// The processor `cpu` is about to try the turn that would be its `turn`-th, counted from 1.
    /// The numbers of a processor never fall. A processor that finds nothing to do tries the same
    /// turn again: at the next call of `work`, and in `work_together` also at each look that it
    /// takes while another one is at work. So a number may come any number of times, and none is
    /// left out.
    fn before(&self, cpu: u8, turn: u64);
}

/// The gate that holds nobody back.
#[derive(Clone, Copy, PartialEq, Eq, Debug)]
pub struct Open;

impl Gate for Open {
    fn before(&self, _cpu: u8, _turn: u64) {}
}
