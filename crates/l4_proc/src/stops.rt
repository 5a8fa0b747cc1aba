//! Why a processor stops, and why its clock does not advance.
use l4_types::errors::NoMemory;

/// Why a processor stopped. But for `Used` its last turn was not taken.
#[derive(Clone, Copy, PartialEq, Eq, Debug)]
pub enum Stop {
    /// There is nothing to do, and no letter was seen.
    Idle,
    /// All turns were taken.
    Used,
    /// Memory was refused. Nothing is lost, and the call can be made again.
    NoMemory,
    /// The letter in hand is not lawful here.
    Mail,
    /// There is a turn or a lawful letter in hand, and the next stamp would reach 2^62.
    Stamp,
}

/// Why a clock does not advance. Nothing is changed then.
#[derive(Clone, Copy, PartialEq, Eq, Debug)]
pub enum ProcFault {
    /// Memory was refused.
    NoMemory,
    /// The clock may not advance to this value: it is not above the clock, or not below 2^62.
    Clock,
    /// The next stamp would reach 2^62.
    Stamp,
}

impl From<NoMemory> for Stop {
    ghost use Rattle.std.specs.Prelude.{◌≡◌};
    ghost use Rattle.l4_proc.specs.declared.stops.Stop.TheVariants.{NoMemory as OutOfMemory};

    ghost from_gives = { λ _ stop. stop ≡ OutOfMemory };

    fn from(_: NoMemory) -> Stop {
        Stop::NoMemory
    }
}

impl From<NoMemory> for ProcFault {
    ghost use Rattle.std.specs.Prelude.{◌≡◌};
    ghost use Rattle.l4_proc.specs.declared.stops.ProcFault.TheVariants.{NoMemory as OutOfMemory};

    ghost from_gives = { λ _ fault. fault ≡ OutOfMemory };

    fn from(_: NoMemory) -> ProcFault {
        ProcFault::NoMemory
    }
}
