//! What an audit tells of the steps of a trace.
ghost use Rattle.std.specs.Prelude.{◌≡◌, ◌++◌, option_map, IfOk};
ghost use Rattle.l4_explain.specs.Inner.Accounts.{IsAccount, IsStopped, IsToldBy, explained};
ghost use Rattle.l4_explain.specs.Inner.Accounts.{reported};
ghost use Rattle.l4_explain.specs.Worlds.{Ends};

use crate::reasons::{Cause, cause_of};
use crate::worlds::{write_explanation, write_world};
use l4_audit::auditor::Auditor;
use l4_audit::reasons::StepFault;
use l4_history::history::History;
use l4_script::machine::Machine;
use l4_types::errors::NoMemory;
use l4_types::reports::Ending;
use std::alloc::Global;

/// A step that is not possible.
#[derive(Clone, Copy, PartialEq, Eq, Debug)]
pub struct Refusal {
    /// Its number among the steps, counted from 1.
    pub number: usize,
    /// Why it is not possible.
    pub cause: Cause,
}

/// An audit that has taken steps as far as they are possible.
#[derive(Drop)]
pub struct Stopped<'m> {
    /// The audit, in the world before the refused step, or after the last step.
    pub auditor: Auditor<'m>,
    /// The first step that is not possible. None if each is possible.
    pub refusal: Option<Refusal>,
}

/// What is to be told.
#[derive(Clone, Copy, PartialEq, Eq, Debug)]
pub struct Shown {
    /// Why the refused step is not possible, and which steps are possible instead.
    pub explain: bool,
    /// The report of the world before the refused step, or after the last step.
    pub report: bool,
}

/// What is told of the steps of a history.
#[derive(Debug, Drop)]
pub struct Account {
    /// The number of the first step that is not possible, counted from 1. None if each is possible.
    pub refused: Option<usize>,
    /// `Quiet` if no step but a tick is possible, now or after any ticks. The world is that before
    /// the refused step, or after the last step.
    pub ending: Ending,
    /// The explanation and then the report, as far as they were asked for.
    pub lines: Vec<u8>,
}

/// Takes the steps of a history as far as they are possible.
pub fn steps_taken<'m>(
    alloc: Global,
    machine: &'m Machine,
    history: &History,
) -> Result<Stopped<'m>, NoMemory>
    ensures { IfOk result (λ stopped.
        IsStopped machine.now history.now.steps stopped.auditor stopped.refusal) }
{
    let mut auditor = Auditor::new(alloc, machine)?;
    for place in 0..history.len() {
        let step = history.step(place);
        match auditor.step(&step) {
            Ok(()) => {}
            Err(StepFault::NoMemory) => return Err(NoMemory),
            Err(StepFault::Refused(reason)) => {
                let number = place + 1;
                let cause = cause_of(machine, &step, reason);
                let refusal = Some(Refusal { number, cause });
                return Ok(Stopped { auditor, refusal });
            }
        }
    }
    let refusal = None;
    Ok(Stopped { auditor, refusal })
}

fn number_of(refusal: &Option<Refusal>) -> Option<usize>
    ensures { result ≡ option_map (λ r. r.number) refusal.now }
{
    match refusal {
        Some(refusal) => Some(refusal.number),
        None => None,
    }
}

// The explanation, if a step was refused and the explanation is asked for.
fn explained(
    alloc: Global,
    auditor: &Auditor<'_>,
    refusal: &Option<Refusal>,
    asked: bool,
) -> Result<Vec<u8>, NoMemory>
    ensures { IfOk result (λ lines. lines.items ≡ explained asked auditor.now refusal.now) }
{
    let mut lines = Vec::new(alloc);
    match refusal {
        Some(refusal) if asked => {
            write_explanation(alloc, auditor, &refusal.cause, &mut lines)?;
        }
        _ => {}
    }
    Ok(lines)
}

// Appends the report if it is asked for. Returns the ending in any case.
fn reported(
    alloc: Global,
    auditor: Auditor<'_>,
    asked: bool,
    out: &mut Vec<u8>,
) -> Result<Ending, NoMemory>
    ensures ending { IfOk result (Ends auditor.entry) }
    ensures ok { IfOk result (λ ending.
        out.new.items ≡ out.old.items ++ reported asked auditor.entry ending) }
{
    if asked {
        write_world(alloc, auditor, out)
    } else {
        auditor.ending()
    }
}

// What is told by an audit that has stopped.
fn account_by(
    alloc: Global,
    auditor: Auditor<'_>,
    refusal: Option<Refusal>,
    shown: Shown,
) -> Result<Account, NoMemory>
    ensures { IfOk result (IsToldBy shown auditor.entry refusal) }
{
    let mut lines = explained(alloc, &auditor, &refusal, shown.explain)?;
    let ending = reported(alloc, auditor, shown.report, &mut lines)?;
    Ok(Account {
        refused: number_of(&refusal),
        ending,
        lines,
    })
}

/// Tells what is asked for: of the first step of a history that is not possible, and of the world
/// before it. If each step is possible, there is nothing to explain, and the world is the one after
/// the last step.
pub fn account_of(
    alloc: Global,
    machine: &Machine,
    history: &History,
    shown: Shown,
) -> Result<Account, NoMemory>
    ensures { IfOk result (IsAccount shown machine.now history.now.steps) }
{
    let Stopped { auditor, refusal } = steps_taken(alloc, machine, history)?;
    account_by(alloc, auditor, refusal, shown)
}
