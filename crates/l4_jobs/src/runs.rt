//! What a run or a replay comes to.
ghost use Rattle.std.specs.Prelude.{◌≡◌, ◌⊎◌, ℕ, [], List, IfOk, IfErr, None, Some, false, map};
ghost use Rattle.std.specs.Prelude.{true};
ghost use Rattle.std.specs.List.{list_all};
ghost use Rattle.std.specs.Option.{option_copied};
ghost use Rattle.l4_model.specs.History.{IsHistory};
ghost use Rattle.l4_model.specs.Machine.{Machine as ModelMachine};
ghost use Rattle.l4_model.specs.Steps.{Step as ModelStep};
ghost use Rattle.l4_commands.specs.Files.{list_name};
ghost use Rattle.l4_expect.specs.Unmet.{expected_status};
ghost use Rattle.l4_replay.specs.Entries.{entry_from};
ghost use Rattle.l4_machine.specs.Outcomes.{Findings, compact_findings_of, steps_of};
ghost use Rattle.l4_told.specs.Told.{findings_with};
ghost use Rattle.l4_trace.specs.Lines.{has_line, trace_of};
ghost use Rattle.l4_jobs.specs.Expectations.{status_by, unmet_by};
ghost use Rattle.l4_jobs.specs.Inputs.{IsRead};
ghost use Rattle.l4_jobs.specs.Objects.{told};
ghost use Rattle.l4_jobs.specs.Outputs.{list_of, output_of};
ghost use Rattle.l4_jobs.specs.Runs.{IsReplayJobDone, IsRunJobDone, IsWritten};
ghost use Rattle.l4_jobs.specs.Runs.{lines_by, list_for, report_of, status_of_ending};
ghost use Rattle.l4_jobs.specs.Schedules.{IsReplayFault, fault_of_turns};
ghost use Rattle.l4_jobs.specs.declared.fault.Fault.TheVariants.{NoMemory as OutOfMemory};
ghost use Rattle.l4_commands.specs.declared.job.TheConstants.{NO_EXTRAS as no_extras};

use crate::done::{Done, Kept};
use crate::extras::write_told_extras;
use crate::fault::Fault;
use crate::job::{NO_EXTRAS, Printed, ReplayJob, RunJob, TextChart};
use crate::objects::lines_or_objects;
use crate::schedules::{asked_entries, whole_replay, with_asked_rest};
use crate::searches::text_form;
use crate::streams::Source;
use crate::trace_lines::{PrintedSteps, objects_of, trace_of};
use l4_chart::listing::Listing;
use l4_chart::whole::whole_text;
use l4_expect::expectations::Expectations;
use l4_machine::{CompactOutcome, RunHistory, run_compact, run_recorded};
use l4_proc::gate::Open;
use l4_replay::Entry;
use l4_reports::report_lines::write_report;
use l4_schedules::writing::recorded_text;
use l4_script::machine::Machine;
use l4_told::{FinalState, parts_of, replay_told, run_told};
use l4_types::errors::NoMemory;
use l4_types::reports::Ending;
use std::alloc::Global;
use std::thread::Threads;

// Whether the history is told, and needed no more then: no chart is drawn of it, nothing is printed
// behind it, and no step is told as an object.
fn is_told(printed: Printed) -> bool
    ensures no_chart { result ≡ true → printed.chart ≡ None }
    ensures no_extras { result ≡ true → printed.extras ≡ no_extras }
    ensures in_lines { result ≡ true → printed.report ≡ false → printed.json ≡ false }
{
    if printed.chart.is_some() || printed.extras != NO_EXTRAS {
        return false;
    }
    printed.report || !printed.json
}

// Whether the history of a run is told. The steps of several processors stay in logs, of which a
// report has no use.
fn is_told_of_run(printed: Printed, machine: &Machine) -> bool
    ensures no_chart { result ≡ true → printed.chart ≡ None }
    ensures no_extras { result ≡ true → printed.extras ≡ no_extras }
    ensures in_lines { result ≡ true → printed.report ≡ false → printed.json ≡ false }
{
    is_told(printed) && (!printed.report || machine.cpus() == 1)
}

// The report of where a run ended.
fn report_of(alloc: Global, state: &FinalState) -> Result<Vec<u8>, NoMemory>
    ensures { IfOk result (λ lines. lines.items ≡ report_of (findings_with [] state.now)) }
{
    let mut lines = Vec::new(alloc);
    write_report(
        state.threads.as_slice(),
        state.waiting.as_slice(),
        state.ending,
        &mut lines,
    )?;
    Ok(lines)
}

// The report of where a run ended, or the trace of its history, in lines or in objects, where no
// chart is drawn. `text` declares the machine.
fn lines_of(
    alloc: Global,
    printed: Printed,
    text: &[u8],
    machine: &Machine,
    history: &RunHistory<'_>,
    state: &FinalState,
) -> Result<Vec<u8>, NoMemory>
    requires { IsHistory machine.now (steps_of history.now) }
    ensures lines { IfOk result (λ lines. lines.items ≡ lines_by printed.report printed.json
        text.now machine.now (findings_with (steps_of history.now) state.now)) }
    ensures spelled { IfOk result (λ lines.
        printed.report ≡ false → list_all has_line (steps_of history.now) ≡ true) }
{
    match (printed.report, printed.json) {
        (true, json) => lines_or_objects(alloc, json, report_of(alloc, state)?),
        (false, true) => objects_of(alloc, text, machine, history),
        (false, false) => trace_of(alloc, history),
    }
}

// What is printed of a history of which a chart is drawn, wherever its run ended.
fn charted_lines(
    alloc: Global,
    printed: Printed,
    chart: TextChart,
    text: &[u8],
    machine: &Machine,
    history: RunHistory<'_>,
) -> Result<Vec<u8>, NoMemory>
    requires history { IsHistory machine.now (steps_of history) }
    requires chart { printed.chart ≡ Some chart }
    ensures { IfOk result (λ lines. (o : Findings) → o.history ≡ steps_of history.entry →
        IsWritten printed text.now machine.now o lines.items) }
{
    let listing = Listing::of(alloc, text)?;
    let history = history.into_history(alloc)?;
    let mut lines = whole_text(alloc, machine, &listing, &history, text_form(chart))?;
    write_told_extras(alloc, printed, machine, &history, &mut lines)?;
    Ok(lines)
}

// What is printed of a history and where its run ended. A compact history is expanded only where
// `--chart`, `--waits`, `--counts` or the objects of its steps need it.
#[tactic(auto, using(crate::proofs::Telling::nothing_behind))]
fn printed_lines(
    alloc: Global,
    printed: Printed,
    text: &[u8],
    machine: &Machine,
    history: RunHistory<'_>,
    state: &FinalState,
) -> Result<Vec<u8>, NoMemory>
    requires { IsHistory machine.now (steps_of history) }
    ensures { IfOk result (λ lines. IsWritten printed text.now machine.now
        (findings_with (steps_of history.entry) state.now) lines.items) }
{
    if let Some(chart) = printed.chart {
        return charted_lines(alloc, printed, chart, text, machine, history);
    }
    let mut lines = lines_of(alloc, printed, text, machine, &history, state)?;
    if printed.extras == NO_EXTRAS {
        return Ok(lines);
    }
    let history = history.into_history(alloc)?;
    write_told_extras(alloc, printed, machine, &history, &mut lines)?;
    Ok(lines)
}

// What is printed where the steps were told: the report of where their run ended, or their lines.
fn told_lines(
    alloc: Global,
    printed: Printed,
    state: &FinalState,
    steps: PrintedSteps,
) -> Result<Vec<u8>, NoMemory>
    ensures report { IfOk result (λ lines. printed.report ≡ true →
        lines.items ≡ told printed.json (report_of (findings_with [] state.now))) }
    ensures trace { IfOk result (λ lines. printed.report ≡ false →
        lines.items ≡ steps.trace.lines.items) }
{
    if printed.report {
        lines_or_objects(alloc, printed.json, report_of(alloc, state)?)
    } else {
        Ok(steps.into_lines())
    }
}

fn status(ending: Ending) -> u8
    ensures { result ≡ status_of_ending ending }
{
    match ending {
        Ending::Quiet => 0,
        Ending::Spent => 3,
    }
}

// What of the expectations does not hold of a report, and the exit status.
#[derive(Drop)]
struct Verdict {
    unmet: Vec<u8>,
    status: u8,
}

// The exit status of a job with expectations, by that of its run.
fn status_of(are_met: bool, status: u8) -> u8
    ensures { result ≡ expected_status are_met status }
{
    if are_met { status } else { 4 }
}

// The verdict on a run that ended so. Its report is made only where something is expected.
fn verdict_on(
    alloc: Global,
    state: &FinalState,
    expected: Option<&Expectations<'_>>,
) -> Result<Verdict, NoMemory>
    ensures unmet { IfOk result (λ verdict. verdict.unmet.items ≡
        unmet_by (option_copied expected.entry) (report_of (findings_with [] state.now))) }
    ensures status { IfOk result (λ verdict. verdict.status ≡
        status_by (option_copied expected.entry) (report_of (findings_with [] state.now))
        (status_of_ending state.now.ending)) }
{
    let mut unmet = Vec::new(alloc);
    let status = status(state.ending);
    let Some(expected) = expected else {
        return Ok(Verdict { unmet, status });
    };
    let report = report_of(alloc, state)?;
    let are_met = expected.write_unmet(report.as_slice(), &mut unmet)?;
    Ok(Verdict {
        unmet,
        status: status_of(are_met, status),
    })
}

// What a run that ended so comes to, with these lines and this record.
fn done_with<'a>(
    alloc: Global,
    lines: Vec<u8>,
    state: &FinalState,
    expected: Option<&Expectations<'_>>,
    list: Option<Kept<'a>>,
) -> Result<Done<'a>, NoMemory>
    ensures lines { IfOk result (λ done. done.lines.items ≡ lines.items) }
    ensures said { IfOk result (λ done. done.said.items ≡
        unmet_by (option_copied expected.entry) (report_of (findings_with [] state.now))) }
    ensures status { IfOk result (λ done. done.status ≡
        status_by (option_copied expected.entry) (report_of (findings_with [] state.now))
        (status_of_ending state.now.ending)) }
    ensures list { IfOk result (λ done. done.list ≡ list.entry) }
{
    let verdict = verdict_on(alloc, state, expected)?;
    Ok(Done {
        lines,
        list,
        said: verdict.unmet,
        status: verdict.status,
    })
}

// What an outcome comes to, with this record of its run.
fn outcome_done<'a>(
    alloc: Global,
    printed: Printed,
    text: &[u8],
    machine: &Machine,
    outcome: CompactOutcome<'_>,
    expected: Option<&Expectations<'_>>,
    list: Option<Kept<'a>>,
) -> Result<Done<'a>, NoMemory>
    requires { IsHistory machine.now (steps_of outcome.history) }
    ensures lines { IfOk result (λ done.
        IsWritten printed text.now machine.now (compact_findings_of outcome.entry)
        done.lines.items) }
    ensures said { IfOk result (λ done. done.said.items ≡
        unmet_by (option_copied expected.entry) (report_of (compact_findings_of outcome.entry))) }
    ensures status { IfOk result (λ done. done.status ≡
        status_by (option_copied expected.entry) (report_of (compact_findings_of outcome.entry))
        (status_of_ending outcome.entry.ending)) }
    ensures list { IfOk result (λ done. done.list ≡ list.entry) }
{
    let (history, state) = parts_of(outcome);
    let lines = printed_lines(alloc, printed, text, machine, history, &state)?;
    done_with(alloc, lines, &state, expected, list)
}

// What a run that ended so comes to, with this record, where its steps were told.
fn told_done<'a>(
    alloc: Global,
    printed: Printed,
    state: &FinalState,
    steps: PrintedSteps,
    expected: Option<&Expectations<'_>>,
    list: Option<Kept<'a>>,
) -> Result<Done<'a>, NoMemory>
    requires no_chart { printed.chart ≡ None }
    requires no_extras { printed.extras ≡ no_extras }
    requires in_lines { printed.report ≡ false → printed.json ≡ false }
    ensures lines { IfOk result (λ done. (text : List ℕ) → (m : ModelMachine) →
        (history : List ModelStep) → IsHistory m history →
        (printed.report ≡ false → (steps.trace.lines.items ≡ trace_of history) ×
        (list_all has_line history ≡ true)) →
        IsWritten printed text m (findings_with history state.now) done.lines.items) }
    ensures said { IfOk result (λ done. done.said.items ≡
        unmet_by (option_copied expected.entry) (report_of (findings_with [] state.now))) }
    ensures status { IfOk result (λ done. done.status ≡
        status_by (option_copied expected.entry) (report_of (findings_with [] state.now))
        (status_of_ending state.now.ending)) }
    ensures list { IfOk result (λ done. done.list ≡ list.entry) }
{
    let lines = told_lines(alloc, printed, state, steps)?;
    done_with(alloc, lines, state, expected, list)
}

/// What a run comes to on the machine that this text declares. It is recorded where a file is named
/// for that.
pub(crate) fn run_done<'a, R: Threads + Sync>(
    rt: &R,
    alloc: Global,
    text: &[u8],
    machine: &Machine,
    run: &RunJob<'a>,
    expected: Option<&Expectations<'_>>,
) -> Result<Done<'a>, Fault<'a>>
    ensures ok { IfOk result (λ done.
        IsRunJobDone run.now text.now machine.now (option_copied expected.entry) (output_of done)) }
    ensures err { IfErr result (λ fault. (fault ≡ OutOfMemory) ⊎
        (fault_of_turns run.now.turns ≡ Some fault)) }
{
    let Some(name) = run.record_to else {
        if is_told_of_run(run.printed, machine) {
            let mut steps = PrintedSteps::new(alloc, !run.printed.report);
            let state = run_told(rt, alloc, machine, run.turns, &mut steps)?;
            return Ok(told_done(alloc, run.printed, &state, steps, expected, None)?);
        }
        let outcome = run_compact(rt, alloc, machine, run.turns, &Open)?;
        return Ok(outcome_done(alloc, run.printed, text, machine, outcome, expected, None)?);
    };
    machine.facts();
    let (outcome, entries) = run_recorded(rt, alloc, machine, run.turns, &Open)?;
    let list = Some(Kept {
        name,
        text: recorded_text(alloc, entries.as_slice())?,
    });
    Ok(outcome_done(alloc, run.printed, text, machine, outcome, expected, list)?)
}

// The record of a replay of these entries, where a file is named for it.
fn record_of<'a>(
    alloc: Global,
    name: Option<&'a str>,
    entries: &[Entry],
) -> Result<Option<Kept<'a>>, NoMemory>
    ensures { IfOk result (λ kept. list_of kept ≡
        list_for (option_copied name.entry) (map entry_from entries.now)) }
{
    match name {
        None => Ok(None),
        Some(name) => Ok(Some(Kept {
            name,
            text: recorded_text(alloc, entries)?,
        })),
    }
}

/// What a replay comes to on the machine that this text declares. `list` gives its schedule where
/// that is in a file. It is recorded where a file is named for that.
pub(crate) fn replay_done<'a, L: Source>(
    alloc: Global,
    text: &[u8],
    machine: &Machine,
    replay: &ReplayJob<'a>,
    list: &mut L,
    expected: Option<&Expectations<'_>>,
) -> Result<Done<'a>, Fault<'a>>
    ensures ok { IfOk result (λ done. (items : List ℕ) ×
        IsRead (list_name replay.now.schedule.now) (L.gives list.old) items ×
        IsReplayJobDone replay.now text.now machine.now items (option_copied expected.entry)
        (output_of done)) }
    ensures err { IfErr result (λ fault. (fault ≡ OutOfMemory) ⊎
        IsReplayFault machine.now replay.now.then_rest replay.now.schedule.now (L.gives list.old)
        fault) }
    ensures unread { list_name replay.now.schedule.now ≡ None → list.new ≡ list.old }
{
    machine.facts();
    let entries = asked_entries(alloc, machine, replay.schedule, list)?;
    if is_told(replay.printed) {
        let all = with_asked_rest(alloc, machine, entries, replay.then_rest)?;
        let mut steps = PrintedSteps::new(alloc, !replay.printed.report);
        let Ok(state) = replay_told(alloc, machine, all.as_slice(), &mut steps) else {
            return Err(Fault::NoMemory);
        };
        let list = record_of(alloc, replay.record_to, all.as_slice())?;
        return Ok(told_done(alloc, replay.printed, &state, steps, expected, list)?);
    }
    let whole = whole_replay(alloc, machine, entries, replay.then_rest)?;
    let list = record_of(alloc, replay.record_to, whole.entries.as_slice())?;
    Ok(outcome_done(
        alloc,
        replay.printed,
        text,
        machine,
        whole.outcome,
        expected,
        list,
    )?)
}
