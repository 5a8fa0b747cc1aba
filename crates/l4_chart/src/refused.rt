//! Which step of a trace is the first that the machine cannot take.
ghost use Rattle.std.specs.Prelude.{◌≡◌, IfOk};
ghost use Rattle.l4_model.specs.History.{IsHistory, refused_place};
ghost use Rattle.l4_chart.specs.Charts.{until_last};
ghost use Rattle.l4_chart.specs.Windows.{Part, until_refused};

use l4_audit::audit::{AuditFault, check_history};
use l4_history::history::History;
use l4_script::machine::Machine;
use l4_types::errors::NoMemory;
use std::alloc::Global;

/// The number of the first step that is not possible, counted from 1. None if each is possible. The
/// steps before it are a history.
pub fn refused_step(
    alloc: Global,
    machine: &Machine,
    history: &History,
) -> Result<Option<usize>, NoMemory>
    ensures place { IfOk result (λ number. number ≡ refused_place machine.now history.now.steps) }
    ensures before { IfOk result (λ number. (part : Part) →
        IsHistory machine.now (until_last (until_refused number part) history.now.steps)) }
{
    match check_history(alloc, machine, history) {
        Ok(_) => Ok(None),
        Err(AuditFault::Refused { place }) => Ok(Some(place)),
        Err(AuditFault::NoMemory) => Err(NoMemory),
    }
}
