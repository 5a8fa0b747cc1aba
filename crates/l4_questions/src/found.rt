//! An ending that a search found.
ghost use Rattle.std.specs.Prelude.{◌≡◌, ◌++◌, IfOk, OnOk};
ghost use Rattle.std.specs.Option.{option_map};
ghost use Rattle.l4_futures.specs.Stuck.{names_one};
ghost use Rattle.l4_model.specs.History.{IsHistory};
ghost use Rattle.l4_questions.specs.Answers.{ending_after};
ghost use Rattle.l4_questions.specs.Beside.{chart_as};
ghost use Rattle.l4_questions.specs.Inner.Found.{is_stuck_wait, report_by, stuck_among, stuck_by};
ghost use Rattle.l4_questions.specs.Printed.{chart_in, head_line};

use crate::beside::AskedChart;
use l4_audit::audit::{AuditFault, audited};
use l4_audit::auditor::Auditor;
use l4_audit::waits::Wait;
use l4_chart::whole::whole_text;
use l4_history::history::History;
use l4_reports::report_lines::write_report;
use l4_script::machine::Machine;
use l4_types::errors::NoMemory;
use l4_types::ids::{GlobalId, Kind, ThreadId};
use l4_types::reports::Ending;
use l4_waits::lines::write_waits;
use std::alloc::Global;
use std::marker::Model;

/// An ending that a search found, as far as a question asks about it and an answer tells it.
#[derive(Drop)]
pub(crate) struct FoundEnding<'m> {
    // What stands behind its number in its first line.
    head: Vec<u8>,
    report: Vec<u8>,
    stuck: Vec<GlobalId>,
    machine: &'m Machine,
    // It is a history, and comes to this ending.
    trace: History,
    // It has taken all steps of the trace.
    auditor: Auditor<'m>,
}

impl<'m> Model for FoundEnding<'m> {
    ghost use Rattle.l4_model.specs.History.{IsHistory};
    ghost use Rattle.l4_questions.specs.Endings.{Ending};
    ghost use Rattle.l4_waits.specs.Lines.{waits_text};

    ghost Value = { Ending };

    ghost view = { λ f. record {
      head = f.head.items;
      report = f.report.items;
      waits = waits_text f.auditor.at.machine f.auditor.at.world;
      machine = f.machine.now;
      trace = f.trace.steps;
      stuck = f.stuck.items;
    } };

    ghost invariant = { λ f. IsHistory f.machine.now f.trace.steps };
}

impl<'m> FoundEnding<'m> {
    /// The ending that a trace comes to, with what stands behind its number.
    ///
    /// `NoMemory`: memory was refused.
    pub(crate) fn new(
        alloc: Global,
        machine: &'m Machine,
        trace: History,
        head: Vec<u8>,
    ) -> Result<FoundEnding<'m>, NoMemory>
        requires { IsHistory machine.now trace.steps }
        ensures { IfOk result (λ found. found ≡
            record (ending_after machine.now trace.steps) { head = head.items }) }
    {
        let auditor = match audited(alloc, machine, &trace) {
            Ok(auditor) => auditor,
            Err(AuditFault::NoMemory) => return Err(NoMemory),
            Err(AuditFault::Refused { .. }) => unreachable!(),
        };
        let report = report_of(alloc, &auditor)?;
        let waits = auditor.waits(alloc)?;
        let stuck = stuck_among(alloc, &waits)?;
        Ok(FoundEnding {
            head,
            report,
            stuck,
            machine,
            trace,
            auditor,
        })
    }

    /// The lines of its report.
    pub(crate) fn report(&self) -> &[u8]
        ensures { result.now ≡ self.now.report }
    {
        self.report.as_slice()
    }

    /// The threads that wait there and may wait for ever.
    pub(crate) fn stuck(&self) -> &[GlobalId]
        ensures { result.now ≡ self.now.stuck }
    {
        self.stuck.as_slice()
    }

    /// Appends its first line, with this number.
    ///
    /// `NoMemory`: memory was refused, and a part of the line may have been appended.
    pub(crate) fn write_head(&self, number: usize, lines: &mut Vec<u8>) -> Result<(), NoMemory>
        ensures { OnOk result (lines.new.items ≡ lines.old.items ++ head_line number self.now) }
    {
        let mut line = String::new(*lines.allocator());
        write!(line, "ending {number}")?;
        lines.extend_from_slice(line.as_bytes())?;
        lines.extend_from_slice(&self.head)?;
        lines.push(b'\n')?;
        Ok(())
    }

    /// A chart of the history that comes to it, where one is asked for.
    ///
    /// `NoMemory`: memory was refused.
    pub(crate) fn chart(
        &self,
        alloc: Global,
        chart: Option<AskedChart<'_, '_>>,
    ) -> Result<Vec<u8>, NoMemory>
        ensures { IfOk result (λ lines. lines.items ≡ chart_in (option_map chart_as chart.entry) self.now) }
    {
        match chart {
            Some(asked) => whole_text(alloc, self.machine, asked.listing, &self.trace, asked.form),
            None => Ok(Vec::new(alloc)),
        }
    }

    /// Appends who waits for whom there.
    ///
    /// `NoMemory`: memory was refused.
    pub(crate) fn write_waits(self, alloc: Global, lines: &mut Vec<u8>) -> Result<(), NoMemory>
        ensures { OnOk result (lines.new.items ≡ lines.old.items ++ self.entry.waits) }
    {
        write_waits(alloc, self.auditor, lines)
    }
}

// The report of the world that an audit has come to, in which nothing but clocks can go on.
fn report_of(alloc: Global, auditor: &Auditor<'_>) -> Result<Vec<u8>, NoMemory>
    ensures { IfOk result (λ lines. lines.items ≡ report_by auditor.now) }
{
    let threads = auditor.threads(alloc)?;
    let waiting = auditor.waiting(alloc)?;
    let mut lines = Vec::new(alloc);
    write_report(
        threads.as_slice(),
        waiting.as_slice(),
        Ending::Quiet,
        &mut lines,
    )?;
    Ok(lines)
}

// Whether an id names one thread alone.
fn names_one(id: ThreadId) -> bool
    ensures { result ≡ names_one id }
{
    match id.kind() {
        Kind::Nil | Kind::Any | Kind::AnyLocal => false,
        Kind::Local | Kind::Global { .. } => true,
    }
}

// Whether a thread with this wait may wait for ever.
fn is_stuck_wait(wait: &Wait) -> bool
    ensures { result ≡ is_stuck_wait wait.now }
{
    match wait {
        Wait::Send(_) | Wait::Arrival(_) => true,
        Wait::Receive(from) => names_one(*from),
    }
}

// Those of the threads that wait which may wait for ever.
fn stuck_among(alloc: Global, waits: &[(GlobalId, Wait)]) -> Result<Vec<GlobalId>, NoMemory>
    ensures { IfOk result (λ stuck. stuck.items ≡ stuck_among waits.now) }
{
    let mut stuck = Vec::new(alloc);
    for waiting in waits {
        push_stuck(waiting, &mut stuck)?;
    }
    Ok(stuck)
}

// Appends a thread that waits, if it may wait for ever.
fn push_stuck(waiting: &(GlobalId, Wait), stuck: &mut Vec<GlobalId>) -> Result<(), NoMemory>
    ensures { OnOk result (stuck.new.items ≡ stuck.old.items ++ stuck_by waiting.now) }
{
    if is_stuck_wait(&waiting.1) {
        stuck.push(waiting.0)?;
    }
    Ok(())
}
