//! The lines that a world on the way tells.
ghost use Rattle.std.specs.Prelude.{◌≡◌, ◌++◌, ◌<◌, ◌^◌, IfOk, IsSome, OnOk, Some, codes, length};
ghost use Rattle.std.specs.Prelude.{flat_map};
ghost use Rattle.std.specs.String.{string_bytes};
ghost use Rattle.l4_model.specs.History.{report_of, view};
ghost use Rattle.l4_futures.specs.Choices.{world_after};
ghost use Rattle.l4_types.specs.ReportView.{report_of_view};
ghost use Rattle.l4_reports.specs.ReportLines.{thread_line, waiting_line};
ghost use Rattle.l4_condition_lines.specs.Conditions.{meets, sends_in, world_text};
ghost use Rattle.l4_always.specs.Always.{world_told};
ghost use Rattle.l4_always.specs.Inner.Told.{send_text};

use l4_all_endings::Way;
use l4_audit::found::Found;
use l4_expect::conditions::Condition;
use l4_outlooks::Outlook;
use l4_reports::report_lines::push_view;
use l4_script::machine::Machine;
use l4_types::errors::NoMemory;
use l4_types::ids::{GlobalId, ThreadId};
use l4_types::reports::ThreadView;
use l4_words::spelling::{push_id, push_thread};
use std::alloc::{AllocError, Global};

// The report of a thread.
fn view_of(found: &Found<'_>) -> ThreadView
    ensures { report_of_view result ≡ report_of found.now.declared.id found.now.now }
{
    ThreadView {
        id: found.id(),
        ..found.tcb.view()
    }
}

// Appends a line for each thread, in order of declaration.
fn push_threads(
    text: &mut String,
    machine: &Machine,
    outlook: &Outlook<'_>,
) -> Result<(), AllocError>
    requires { outlook.now.machine ≡ machine.now }
    ensures { OnOk result (string_bytes text.new ≡ string_bytes text.old
        ++ flat_map thread_line (view machine.now outlook.now.world)) }
{
    outlook.facts();
    for place in 0..machine.threads().len() {
        let Some(found) = outlook.found_at(place) else {
            continue;
        };
        push_view(text, &view_of(&found))?;
    }
    Ok(())
}

// Appends the line of an undecided send: the thread that began it, its number, and its destination.
fn push_send(text: &mut String, id: GlobalId, number: u64, to: ThreadId) -> Result<(), AllocError>
    ensures { OnOk result (string_bytes text.new ≡ string_bytes text.old
        ++ waiting_line (record { thread = id; k = number }, to)) }
{
    text.push_str("waiting")?;
    push_thread(text, id)?;
    write!(text, "#{number}")?;
    push_id(text, to)?;
    text.push('\n')?;
    Ok(())
}

// Appends the line of the undecided send of a thread, if it has one.
fn push_send_of(text: &mut String, found: &Found<'_>) -> Result<(), AllocError>
    ensures { OnOk result (string_bytes text.new ≡ string_bytes text.old
        ++ send_text found.now.declared.id found.now.now) }
{
    match found.pending() {
        Some(pending) => push_send(text, found.id(), found.begun(), pending.send().to()),
        None => Ok(()),
    }
}

// Appends a line for each undecided send, in order of declaration of the threads that began them.
fn push_sends(text: &mut String, machine: &Machine, outlook: &Outlook<'_>) -> Result<(), AllocError>
    requires { outlook.now.machine ≡ machine.now }
    ensures { OnOk result (string_bytes text.new ≡ string_bytes text.old
        ++ flat_map waiting_line (sends_in machine.now outlook.now.world)) }
{
    outlook.facts();
    for place in 0..machine.threads().len() {
        let Some(found) = outlook.found_at(place) else {
            continue;
        };
        push_send_of(text, &found)?;
    }
    Ok(())
}

// The lines that a world tells on the way: those of a report, but that of an ending.
fn world_lines(alloc: Global, machine: &Machine, outlook: &Outlook<'_>) -> Result<Vec<u8>, NoMemory>
    requires { outlook.now.machine ≡ machine.now }
    ensures { IfOk result (λ lines. lines.items ≡ world_text machine.now outlook.now.world) }
{
    let mut text = String::new(alloc);
    push_threads(&mut text, machine, outlook)?;
    push_sends(&mut text, machine, outlook)?;
    Ok(text.into_bytes())
}

/// Whether a world meets a condition.
///
/// `NoMemory`: memory was refused.
pub(crate) fn is_met(
    alloc: Global,
    machine: &Machine,
    condition: &Condition<'_>,
    outlook: &Outlook<'_>,
) -> Result<bool, NoMemory>
    requires { outlook.now.machine ≡ machine.now }
    ensures { IfOk result (λ is_met. is_met ≡ meets machine.now condition.now outlook.now.world) }
{
    let text = world_lines(alloc, machine, outlook)?;
    Ok(condition.is_told(&text))
}

/// The lines that the world tells which entries lead to.
///
/// `NoMemory`: memory was refused.
pub fn world_lines_after(
    alloc: Global,
    machine: &Machine,
    entries: &[u32],
) -> Result<Vec<u8>, NoMemory>
    requires leads { IsSome (world_after machine.now entries.now) }
    requires few { length entries.now < 2 ^ 20 }
    ensures { IfOk result (λ lines. lines.items
        ≡ world_told machine.now (world_after machine.now entries.now)) }
{
    let outlook = Way::new(alloc, machine)?.outlook(alloc, entries)?;
    world_lines(alloc, machine, &outlook)
}
