//! What leads from one found state to another.

/// A step leads from the state at a place to the one at another.
#[derive(Clone, Copy, PartialEq, Eq, Debug)]
pub struct Edge {
    /// The place that it leads from.
    pub from: u32,
    /// The place that it leads to.
    pub to: u32,
}
