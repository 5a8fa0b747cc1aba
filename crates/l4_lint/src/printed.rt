//! What is printed of a text.

/// What is printed for a text, and the exit status.
#[derive(Drop)]
pub struct Lint {
    /// A line for each fault, in the order of the text.
    pub lines: Vec<u8>,
    /// 1 where the text has a fault, else 0.
    pub status: u8,
}
