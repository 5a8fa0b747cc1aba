//! The audit of a trace.
ghost use Rattle.std.specs.Prelude.{◌≡◌, ◌+◌, ◌<◌, ◌^◌, IfOk, IfErr, map};
ghost use Rattle.l4_types.specs.StepView.{step_of};
ghost use Rattle.l4_audit.specs.Audits.{Passes, Blames, IsReached, fault_at};

use crate::auditor::Auditor;
use crate::reasons::StepFault;
use l4_history::history::History;
use l4_script::machine::Machine;
use l4_types::errors::NoMemory;
use l4_types::ids::ThreadId;
use l4_types::reports::{Ending, ThreadView};
use l4_types::steps::{Name, Step};
use std::alloc::Global;

/// The result of an audit: what a history leads to.
#[derive(Debug, Drop)]
pub struct Audit {
    /// `Quiet` where no step but a tick is possible, now or after any ticks.
    pub ending: Ending,
    /// The report of each thread, in order of declaration.
    pub threads: Vec<ThreadView>,
    /// The undecided sends in order of beginning, each with its destination.
    pub waiting: Vec<(Name, ThreadId)>,
}

/// Why there is no audit.
#[derive(Clone, Copy, PartialEq, Eq, Debug)]
pub enum AuditFault {
    /// Memory was refused.
    NoMemory,
    /// The steps are no history.
    Refused {
        /// The first step that is not possible, counted from 1.
        place: usize,
    },
}

impl From<NoMemory> for AuditFault {
    ghost use Rattle.std.specs.Prelude.{◌≡◌};
    ghost use Rattle.l4_audit.specs.declared.audit.AuditFault.TheVariants.{NoMemory as Wanting};

    ghost from_gives = { λ error fault. fault ≡ Wanting };

    fn from(_error: NoMemory) -> AuditFault {
        AuditFault::NoMemory
    }
}

impl AuditFault {
    // The fault of a step. `taken` steps come before it.
    fn at(taken: usize, fault: StepFault) -> AuditFault
        requires { taken + 1 < 2 ^ 64 }
        ensures { result ≡ fault_at taken fault }
    {
        match fault {
            StepFault::NoMemory => AuditFault::NoMemory,
            StepFault::Refused(_) => AuditFault::Refused { place: taken + 1 },
        }
    }
}

/// Audits a trace. `Refused` exactly where the steps are no history of the machine, unless memory
/// is refused.
pub fn check(alloc: Global, machine: &Machine, steps: &[Step]) -> Result<Audit, AuditFault>
    ensures passed { IfOk result (λ audit. Passes machine.now (map step_of steps.now) audit) }
    ensures refused { IfErr result (λ fault. Blames machine.now (map step_of steps.now) fault) }
{
    let history = History::from_steps(alloc, steps)?;
    check_history(alloc, machine, &history)
}

/// Audits a trace that was read. `Refused` exactly where its steps are no history of the machine,
/// unless memory is refused.
///
/// The words of a delivery are compared where they are. The cost of a step does not grow with the
/// number of threads. A step that asks for the first acceptable sender looks at those before it.
pub fn check_history(
    alloc: Global,
    machine: &Machine,
    history: &History,
) -> Result<Audit, AuditFault>
    ensures passed { IfOk result (λ audit. Passes machine.now history.now.steps audit) }
    ensures refused { IfErr result (λ fault. Blames machine.now history.now.steps fault) }
{
    let auditor = audited(alloc, machine, history)?;
    let threads = auditor.threads(alloc)?;
    let waiting = auditor.waiting(alloc)?;
    let ending = auditor.ending()?;
    Ok(Audit {
        ending,
        threads,
        waiting,
    })
}

/// The audit after all steps of a history. `Refused` exactly where the steps are no history of the
/// machine, unless memory is refused.
pub fn audited<'m>(
    alloc: Global,
    machine: &'m Machine,
    history: &History,
) -> Result<Auditor<'m>, AuditFault>
    ensures reached { IfOk result (λ a. IsReached machine.now history.now.steps a) }
    ensures refused { IfErr result (λ fault. Blames machine.now history.now.steps fault) }
{
    let mut auditor = Auditor::new(alloc, machine)?;
    for place in 0..history.len() {
        let step = history.step(place);
        match auditor.step(&step) {
            Ok(()) => {}
            Err(fault) => return Err(AuditFault::at(place, fault)),
        }
    }
    Ok(auditor)
}
