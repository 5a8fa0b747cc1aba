//! What may happen next behind a schedule.
ghost use Rattle.std.specs.Prelude.{◌≡◌, ◌⊎◌, ℕ, List, IfOk, IfErr, Ok, None};
ghost use Rattle.l4_commands.specs.Files.{list_name};
ghost use Rattle.l4_jobs.specs.Inputs.{IsRead};
ghost use Rattle.l4_jobs.specs.Nexts.{IsNextDone, IsNextFault};
ghost use Rattle.l4_jobs.specs.Outputs.{output_of};
ghost use Rattle.l4_jobs.specs.declared.fault.Fault.TheVariants.{NoMemory as OutOfMemory};

use crate::done::Done;
use crate::fault::Fault;
use crate::schedules::asked_entries;
use crate::streams::Source;
use l4_next::nexts::next_lines;
use l4_script::machine::Machine;
use std::alloc::Global;

/// What telling what may happen next comes to. `list` gives the schedule where that is in a file.
pub(crate) fn next_done<'a, L: Source>(
    alloc: Global,
    machine: &Machine,
    schedule: &'a str,
    list: &mut L,
) -> Result<Done<'a>, Fault<'a>>
    ensures ok { IfOk result (λ done. (text : List ℕ) ×
        IsRead (list_name schedule.now) (L.gives list.old) text ×
        IsNextDone machine.now schedule.now text (output_of done)) }
    ensures err { IfErr result (λ fault. (fault ≡ OutOfMemory) ⊎
        IsNextFault machine.now schedule.now (L.gives list.old) fault) }
    ensures unread { list_name schedule.now ≡ None → list.new ≡ list.old }
{
    let entries = asked_entries(alloc, machine, schedule, list)?;
    Ok(Done {
        lines: next_lines(alloc, machine, entries.as_slice())?,
        list: None,
        said: Vec::new(alloc),
        status: 0,
    })
}
