//! The audit of a trace, and the line that it prints.
ghost use Rattle.std.specs.Prelude.{◌≡◌, ◌⊎◌, ◌++◌, ℕ, List, false, true, length, IfOk, IfErr, Ok};
ghost use Rattle.std.specs.Prelude.{Some};
ghost use Rattle.l4_jobs.specs.Audits.{HasPassed, IsAuditDone, IsAudited, IsFaultOfTrace};
ghost use Rattle.l4_jobs.specs.Audits.{IsPassed, IsRefusedAt, IsRefusedBy, IsTraceFault};
ghost use Rattle.l4_jobs.specs.Audits.{fault_behind, passed_line, tells_refusals};
ghost use Rattle.l4_jobs.specs.Extras.{behind};
ghost use Rattle.l4_jobs.specs.Outputs.{output_of};
ghost use Rattle.l4_jobs.specs.declared.fault.Fault.TheVariants.{NoMemory as OutOfMemory};
ghost use Rattle.l4_model.specs.History.{IsHistory, reached, refused_place};
ghost use Rattle.l4_model.specs.World.{World};
ghost use Rattle.l4_trace.specs.Lines.{IsTraceOf};
ghost use Rattle.l4_trace.specs.Reading.{steps_of};

use crate::done::Done;
use crate::extras::write_extras;
use crate::fault::Fault;
use crate::job::{Extras, Judged, NO_EXTRAS};
use crate::reading::read_all;
use crate::streams::Source;
use crate::trace_output::TraceOutput;
use l4_audit::auditor::Auditor;
use l4_audit::reasons::StepFault;
use l4_explain::accounts::{Account, Shown, account_of};
use l4_history::history::History;
use l4_reports::report_lines::spelled_ending;
use l4_script::machine::Machine;
use l4_trace::reader::{ReadWords, Reader};
use l4_trace::reading::read_history;
use l4_types::errors::NoMemory;
use l4_types::reports::Ending;
use std::alloc::Global;

/// The result of an audit that a trace passed.
#[derive(Clone, Copy, Debug, PartialEq, Eq)]
pub struct PassedTrace {
    /// How many steps it has.
    pub steps: usize,
    /// `Quiet` where after them no step but a tick is possible, now or after any ticks.
    pub ending: Ending,
}

/// Audits the text of a trace. It judges each step as it reads it, and keeps none.
///
/// `Trace`: this line, counted from 1, is the first that spells no step or has no line end. The
/// text is read to its end even where an earlier step is not possible.
/// `Refused`: no line is faulty, and this step, counted from 1, is the first that is not possible.
/// `NoMemory`: memory was refused, which says nothing about the text.
pub fn audit_text<'a>(
    alloc: Global,
    machine: &Machine,
    text: &[u8],
) -> Result<PassedTrace, Fault<'a>>
    ensures ok { IfOk result (HasPassed machine.now text.now) }
    ensures err { IfErr result (λ fault. (fault ≡ OutOfMemory) ⊎
        IsFaultOfTrace false machine.now text.now fault) }
{
    let mut auditor = Auditor::new(alloc, machine)?;
    let mut reader = Reader::of(text);
    let mut words = ReadWords::new();
    'steps: while let Some(step) = reader.next(&mut words)? {
        match auditor.step(&step) {
            Ok(()) => {}
            Err(refused) => return Err(fault_behind(reader, refused)),
        }
    }
    Ok(PassedTrace {
        steps: reader.count(),
        ending: auditor.ending()?,
    })
}

// The fault of a trace with a refused step. A faulty line after that step comes first.
fn fault_behind<'a>(reader: Reader<'_>, refused: StepFault) -> Fault<'a>
    ensures { result ≡ fault_behind reader.entry.read (steps_of reader.entry.rest) refused }
{
    match refused {
        StepFault::NoMemory => Fault::NoMemory,
        StepFault::Refused(_) => {
            let place = reader.count();
            match reader.read_on() {
                Ok(()) => Fault::Refused(place),
                Err(fault) => Fault::from(fault),
            }
        }
    }
}

// What an audit prints without `--report` and `--explain`. It keeps the steps only where `--waits`
// or `--counts` needs them.
pub(crate) fn audit_lines<'a>(
    alloc: Global,
    machine: &Machine,
    trace: &[u8],
    judged: Judged,
) -> Result<Vec<u8>, Fault<'a>>
    requires { tells_refusals judged ≡ false }
    ensures ok { IfOk result (λ lines. IsPassed judged machine.now trace.now lines.items) }
    ensures err { IfErr result (λ fault. (fault ≡ OutOfMemory) ⊎
        IsFaultOfTrace false machine.now trace.now fault) }
{
    let passed = audit_text(alloc, machine, trace)?;
    let mut lines = passed_line(alloc, passed.steps, passed.ending)?;
    if judged.extras == NO_EXTRAS {
        return Ok(lines);
    }
    let history = read_history(alloc, trace)?;
    write_extras(alloc, judged.extras, machine, &history, &mut lines)?;
    Ok(lines)
}

// What is printed where all steps are possible: the line of the audit, its report, and what is
// asked for behind that.
fn passed_lines(
    alloc: Global,
    machine: &Machine,
    history: &History,
    account: &Account,
    extras: Extras,
) -> Result<Vec<u8>, NoMemory>
    requires { IsHistory machine.now history.now.steps }
    ensures { IfOk result (λ lines.
        (w : World) → reached machine.now history.now.steps ≡ Some w →
        lines.items ≡ passed_line (length history.now.steps) account.now.ending ++
        account.now.lines.items ++ behind extras machine.now w history.now.steps) }
{
    let mut lines = passed_line(alloc, history.len(), account.ending)?;
    lines.extend_from_slice(account.lines.as_slice())?;
    write_extras(alloc, extras, machine, history, &mut lines)?;
    Ok(lines)
}

// What an audit with `--report` or `--explain` prints of a history.
fn judged_history(
    alloc: Global,
    machine: &Machine,
    history: &History,
    judged: Judged,
) -> Result<TraceOutput, NoMemory>
    requires { tells_refusals judged ≡ true }
    ensures lines { IfOk result (λ output.
        (trace : List ℕ) → IsTraceOf trace history.now.steps →
        IsAudited judged machine.now trace output.lines.items output.status) }
    ensures refused { IfOk result (λ output.
        output.refused ≡ refused_place machine.now history.now.steps) }
{
    let shown = Shown {
        explain: judged.explain,
        report: judged.report,
    };
    let account = account_of(alloc, machine, history, shown)?;
    match account.refused {
        None => Ok(TraceOutput {
            lines: passed_lines(alloc, machine, history, &account, judged.extras)?,
            status: 0,
            refused: None,
        }),
        Some(number) => Ok(TraceOutput {
            lines: account.lines,
            status: 1,
            refused: Some(number),
        }),
    }
}

// What an audit with `--report` or `--explain` prints of a trace. It keeps the steps.
pub(crate) fn judged_trace<'a>(
    alloc: Global,
    machine: &Machine,
    trace: &[u8],
    judged: Judged,
) -> Result<TraceOutput, Fault<'a>>
    requires { tells_refusals judged ≡ true }
    ensures lines { IfOk result (λ output.
        IsAudited judged machine.now trace.now output.lines.items output.status) }
    ensures refused { IfOk result (λ output.
        IsRefusedAt machine.now trace.now output.refused) }
    ensures err { IfErr result (λ fault. (fault ≡ OutOfMemory) ⊎
        IsFaultOfTrace true machine.now trace.now fault) }
{
    let history = read_history(alloc, trace)?;
    Ok(judged_history(alloc, machine, &history, judged)?)
}

fn passed_line(alloc: Global, steps: usize, ending: Ending) -> Result<Vec<u8>, NoMemory>
    ensures { IfOk result (λ line. line.items ≡ passed_line steps ending) }
{
    let mut line = String::new(alloc);
    writeln!(line, "passed {steps} {}", spelled_ending(ending))?;
    Ok(line.into_bytes())
}

// What is printed of the text of a trace.
fn trace_output<'a>(
    alloc: Global,
    machine: &Machine,
    trace: &[u8],
    judged: Judged,
) -> Result<TraceOutput, Fault<'a>>
    ensures audited { IfOk result (λ output.
        IsAudited judged machine.now trace.now output.lines.items output.status) }
    ensures refused { IfOk result (λ output.
        IsRefusedBy (tells_refusals judged) machine.now trace.now output.refused) }
    ensures err { IfErr result (λ fault. (fault ≡ OutOfMemory) ⊎
        IsFaultOfTrace (tells_refusals judged) machine.now trace.now fault) }
{
    if judged.tells_refusals() {
        return judged_trace(alloc, machine, trace, judged);
    }
    Ok(TraceOutput {
        lines: audit_lines(alloc, machine, trace, judged)?,
        status: 0,
        refused: None,
    })
}

/// What an audit comes to, for the trace that its source gives.
pub(crate) fn audit_done<'a, T: Source>(
    alloc: Global,
    machine: &Machine,
    name: &'a str,
    judged: Judged,
    trace: &mut T,
) -> Result<Done<'a>, Fault<'a>>
    ensures ok { IfOk result (λ done. (text : List ℕ) × T.gives trace.old (Ok text) ×
        IsAuditDone judged machine.now text (output_of done)) }
    ensures err { IfErr result (λ fault. (fault ≡ OutOfMemory) ⊎
        IsTraceFault (tells_refusals judged) machine.now name.now (T.gives trace.old) fault) }
{
    let text = read_all(alloc, name, trace)?;
    let output = trace_output(alloc, machine, text.as_slice(), judged)?;
    Ok(output.into_done(alloc)?)
}
