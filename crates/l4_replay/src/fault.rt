//! Why a run or a replay has no outcome.
ghost use Rattle.std.specs.Prelude.{◌≡◌};
ghost use Rattle.l4_replay.specs.declared.fault.RunFault.TheVariants.{NoMemory as RunNoMemory};

use l4_mail::rests::RestFault;
use l4_types::errors::NoMemory;

/// Why there is no outcome.
#[derive(Clone, Copy, PartialEq, Eq, Debug)]
pub enum RunFault {
    /// Memory was refused.
    NoMemory,
    /// The number of turns is 0 or above 1,000,000, or a schedule has more entries than there may
    /// be.
    Turns,
    /// This entry of the schedule, counted from 1, is the first that is none of the machine.
    Schedule(usize),
    /// The processors are not exactly those of the machine, each once.
    Strangers,
}

impl From<NoMemory> for RunFault {
    ghost from_gives = { λ _ fault. fault ≡ RunNoMemory };

    fn from(_: NoMemory) -> RunFault {
        RunFault::NoMemory
    }
}

impl From<RestFault> for RunFault {
    ghost use Rattle.std.specs.Prelude.{◌≡◌};
    ghost use Rattle.l4_mail.specs.declared.rests.RestFault.{RestFault as Fault};
    ghost use Rattle.l4_replay.specs.Inner.Faults.{fault_of_rest};

    ghost from_gives = { λ fault run. run ≡ fault_of_rest fault };

    fn from(fault: RestFault) -> RunFault {
        match fault {
            RestFault::Numbers => RunFault::Strangers,
            RestFault::NoMemory => RunFault::NoMemory,
        }
    }
}
