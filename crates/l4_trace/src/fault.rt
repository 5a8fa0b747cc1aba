//! What is wrong with the text of a trace.
ghost use Rattle.std.specs.Prelude.{◌≡◌};
ghost use Rattle.l4_trace.specs.declared.fault.TraceFault.TheVariants.{NoMemory as OutOfMemory};

use l4_types::errors::NoMemory;

/// Why a text is not read.
#[derive(Clone, Copy, Debug, PartialEq, Eq)]
pub enum TraceFault {
    /// Memory was refused.
    NoMemory,
    /// This line, counted from 1, is the first that spells no step, or has no line end.
    Line(usize),
}

impl From<NoMemory> for TraceFault {
    ghost from_gives = { λ _ fault. fault ≡ OutOfMemory };

    fn from(_error: NoMemory) -> TraceFault {
        TraceFault::NoMemory
    }
}
