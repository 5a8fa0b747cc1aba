//! What is wrong with a machine text.
ghost use Rattle.std.specs.Prelude.{◌≡◌};
ghost use Rattle.l4_script.specs.Faults.{fault_of};
ghost use Rattle.l4_script.specs.declared.text.fault.TextFaultKind.TheVariants.{NoMemory as OutOfMemory};

use l4_types::errors::NoMemory;

/// The first fault of a machine text.
#[derive(Clone, Copy, Debug, PartialEq, Eq)]
pub struct TextFault {
    /// The line, counted from 1, skipped lines too. 0 where the fault is of no line.
    pub line: usize,
    /// What is wrong there.
    pub kind: TextFaultKind,
}

impl TextFault {
    /// A fault of this line, or of none where memory was refused.
    pub(super) fn at(line: usize, kind: TextFaultKind) -> TextFault
        ensures { result ≡ fault_of line kind }
    {
        match kind {
            TextFaultKind::NoMemory => TextFault { line: 0, kind },
            _ => TextFault { line, kind },
        }
    }
}

/// The kinds of faults. A line is judged in this order: its form (`BadLine`), its operands from
/// left to right, the limits, and a thread number declared before.
#[derive(Clone, Copy, Debug, PartialEq, Eq)]
pub enum TextFaultKind {
    /// The text has more bytes than a text may have. Its line is 0.
    TooLong,
    /// Memory was refused. Its line is 0.
    NoMemory,
    /// A byte that is not printable ASCII, a missing line end, a wrong number of words, an empty or
    /// an unknown word, or a line that may not stand in its place.
    BadLine,
    /// No number, or one out of its range.
    BadNumber,
    /// No thread id, or no global one where a global one is wanted.
    BadId,
    /// A name that is not declared, that is declared twice, or that is a keyword (scripts of version
    /// 2).
    BadName,
    /// A processor that the machine does not have.
    BadCpu,
    /// A message tag with typed items (manual: Messages and Message Registers).
    TypedItems,
    /// A thread number that was declared before, with any version.
    DoubleId,
    /// A thread past the 1,024th.
    TooManyThreads,
    /// An instruction past the 1,024th of its script.
    TooManyInstructions,
    /// A `jump` or `onerr` to a place above its script's number of instructions. It is judged where
    /// no line has another fault.
    BadTarget,
}

impl From<NoMemory> for TextFaultKind {
    ghost from_gives = { λ _ kind. kind ≡ OutOfMemory };

    fn from(_error: NoMemory) -> TextFaultKind {
        TextFaultKind::NoMemory
    }
}
