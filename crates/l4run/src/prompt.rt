//! An input whose lines are asked for on a terminal.

use l4_jobs::streams::Sink;
use std::io;
use std::io::Read;

// What asks for a line.
const PROMPT: &[u8] = b"> ";

/// Where lines are asked for.
#[derive(Drop)]
pub struct Prompt<T> {
    /// The terminal.
    pub terminal: T,
    /// Whether they are: they come from a terminal, and there is one to ask on.
    pub is_shown: bool,
}

/// An input that asks ahead of each read. A terminal gives a line at a time. A write that fails is no
/// fault.
#[derive(Drop)]
pub struct Asking<I, T> {
    /// The input.
    pub input: I,
    /// Where its lines are asked for.
    pub prompt: Prompt<T>,
}

impl<I: Read, T: Sink> Read for Asking<I, T> {
    ghost remaining = { λ s. I.remaining s.input };

    fn read(&mut self, buf: &mut [u8]) -> io::Result<usize> {
        if self.prompt.is_shown {
            let _ = self.prompt.terminal.put(PROMPT);
        }
        self.input.read(buf)
    }
}
