//! What is printed behind a trace, a report or the line of an audit.
ghost use Rattle.std.specs.Prelude.{◌≡◌, ◌++◌, Some, OnOk};
ghost use Rattle.l4_jobs.specs.Extras.{behind};
ghost use Rattle.l4_jobs.specs.Objects.{told};
ghost use Rattle.l4_model.specs.History.{IsHistory, reached};
ghost use Rattle.l4_model.specs.World.{World};

use crate::job::{Extras, Printed};
use crate::objects::lines_or_objects;
use l4_counts::lines::write_counts;
use l4_history::history::History;
use l4_script::machine::Machine;
use l4_types::errors::NoMemory;
use l4_waits::lines::write_waits_after;
use std::alloc::Global;

/// Appends what is asked for about the steps of a history: who waits for whom behind them, and then
/// what each thread did.
pub(crate) fn write_extras(
    alloc: Global,
    extras: Extras,
    machine: &Machine,
    history: &History,
    out: &mut Vec<u8>,
) -> Result<(), NoMemory>
    requires { IsHistory machine.now history.now.steps }
    ensures { OnOk result ((w : World) → reached machine.now history.now.steps ≡ Some w →
        out.new.items ≡ out.old.items ++ behind extras machine.now w history.now.steps) }
{
    if extras.waits {
        write_waits_after(alloc, machine, history, out)?;
    }
    if extras.counts {
        write_counts(alloc, machine, history, out)?;
    }
    Ok(())
}

/// The same behind a trace or a report, told as these are.
pub(crate) fn write_told_extras(
    alloc: Global,
    printed: Printed,
    machine: &Machine,
    history: &History,
    out: &mut Vec<u8>,
) -> Result<(), NoMemory>
    requires { IsHistory machine.now history.now.steps }
    ensures { OnOk result ((w : World) → reached machine.now history.now.steps ≡ Some w →
        out.new.items ≡ out.old.items ++
        told printed.json (behind printed.extras machine.now w history.now.steps)) }
{
    let mut lines = Vec::new(alloc);
    write_extras(alloc, printed.extras, machine, history, &mut lines)?;
    let lines = lines_or_objects(alloc, printed.json, lines)?;
    out.extend_from_slice(lines.as_slice())?;
    Ok(())
}
