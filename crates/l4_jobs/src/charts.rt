//! The chart of a trace.
ghost use Rattle.std.specs.Prelude.{◌≡◌, ◌⊎◌, ℕ, List, IfOk, IfErr, Ok, Some, true};
ghost use Rattle.std.specs.Option.{option_copied, option_map};
ghost use Rattle.l4_model.specs.History.{refused_place};
ghost use Rattle.l4_chart.specs.Charts.{chart_of, drawn_of};
ghost use Rattle.l4_chart.specs.Drawings.{IsDrawing};
ghost use Rattle.l4_chart.specs.Listings.{listing_of};
ghost use Rattle.l4_chart.specs.Windows.{until_refused};
ghost use Rattle.l4_jobs.specs.Audits.{IsFaultOfTrace, IsRefusedAt};
ghost use Rattle.l4_jobs.specs.ChartJobs.{IsChartDone, IsChartFault, IsCharted, chosen_by};
ghost use Rattle.l4_jobs.specs.ChartJobs.{chosen_threads, drawing_form, fault_of_threads};
ghost use Rattle.l4_jobs.specs.ChartJobs.{part_of, status_of_refused, text_width};
ghost use Rattle.l4_jobs.specs.Outputs.{output_of};
ghost use Rattle.l4_jobs.specs.declared.fault.Fault.TheVariants.{NoMemory as OutOfMemory};

use crate::done::Done;
use crate::fault::Fault;
use crate::job::{ChartForm, ChartJob};
use crate::reading::read_all;
use crate::streams::Source;
use crate::trace_output::TraceOutput;
use l4_chart::chart::Chart;
use l4_chart::drawing::{Form, drawing_of};
use l4_chart::listing::Listing;
use l4_chart::refused::refused_step;
use l4_chart::threads::threads_of;
use l4_chart::window::Window;
use l4_history::history::History;
use l4_script::machine::Machine;
use l4_trace::reading::read_history;
use l4_types::errors::NoMemory;
use l4_types::ids::GlobalId;
use std::alloc::Global;

// The width in columns, where neither the job nor the terminal tells one.
const DEFAULT_WIDTH: usize = 80;

/// The threads that a list names, where there is one.
pub(crate) fn listed_threads<'a>(
    alloc: Global,
    machine: &Machine,
    list: Option<&str>,
) -> Result<Option<Vec<GlobalId>>, Fault<'a>>
    ensures ok { IfOk result (λ threads. chosen_threads machine.now (option_copied list.entry) ≡
        Ok (option_map (λ listed. listed.items) threads)) }
    ensures err { IfErr result (λ fault. (fault ≡ OutOfMemory) ⊎
        (fault_of_threads (chosen_threads machine.now (option_copied list.entry)) ≡ Some fault)) }
{
    match list {
        None => Ok(None),
        Some(list) => Ok(Some(threads_of(alloc, machine, list)?)),
    }
}

// The same threads, borrowed.
fn list_of<'v>(threads: &'v Option<Vec<GlobalId>>) -> Option<&'v [GlobalId]>
    ensures { option_copied result ≡ option_map (λ listed. listed.items) threads.now }
{
    match threads {
        Some(listed) => Some(listed.as_slice()),
        None => None,
    }
}

/// The width of a text in columns, where 0 stands for 80.
pub(crate) fn text_width(width: u64) -> usize
    ensures { result ≡ text_width width }
{
    if width == 0 {
        DEFAULT_WIDTH
    } else {
        width as usize
    }
}

// The form of the drawing.
fn drawing_form(form: ChartForm) -> Form
    ensures { result ≡ drawing_form form }
{
    match form {
        ChartForm::Lines => Form::Lines,
        ChartForm::Ascii => Form::Ascii,
        ChartForm::Svg => Form::Svg,
        ChartForm::Html => Form::Html,
        ChartForm::Mermaid => Form::Mermaid,
    }
}

// The exit status by the first step that is not possible.
fn status_of_refused(refused: Option<usize>) -> u8
    ensures { result ≡ status_of_refused refused }
{
    match refused {
        None => 0,
        Some(_) => 1,
    }
}

// A chart in the form and the width that are asked for.
fn drawing(alloc: Global, chart: &ChartJob<'_>, shown: &Chart<'_, '_>) -> Result<Vec<u8>, NoMemory>
    ensures { IfOk result (λ drawing. IsDrawing (drawing_form chart.now.form)
        (text_width chart.now.width) (drawn_of shown.now) drawing.items) }
{
    drawing_of(
        alloc,
        shown,
        drawing_form(chart.form),
        text_width(chart.width),
    )
}

// What the chart of a history prints, with these threads or all, of the machine that `text` declares.
fn history_chart(
    alloc: Global,
    text: &[u8],
    machine: &Machine,
    chart: &ChartJob<'_>,
    threads: Option<&[GlobalId]>,
    history: &History,
) -> Result<TraceOutput, NoMemory>
    ensures refused { IfOk result (λ output.
        output.refused ≡ refused_place machine.now history.now.steps) }
    ensures status { IfOk result (λ output.
        output.status ≡ status_of_refused (refused_place machine.now history.now.steps)) }
    ensures lines { IfOk result (λ output.
        IsDrawing (drawing_form chart.now.form) (text_width chart.now.width)
        (chart_of machine.now (listing_of text.now)
        (until_refused (refused_place machine.now history.now.steps)
        (part_of chart.now (option_copied threads.entry)))
        history.now.steps) output.lines.items) }
{
    let refused = refused_step(alloc, machine, history)?;
    let (first, last) = (chart.first as usize, chart.last as usize);
    let all = Window::new(first, last, threads, chart.registers, chart.folds);
    let window = all.until_refused(refused);
    let listing = Listing::of(alloc, text)?;
    let shown = Chart::new(alloc, machine, &listing, history, &window)?;
    Ok(TraceOutput {
        lines: drawing(alloc, chart, &shown)?,
        status: status_of_refused(refused),
        refused,
    })
}

// What the chart of the text of a trace prints.
fn chart_output<'a>(
    alloc: Global,
    text: &[u8],
    machine: &Machine,
    chart: &ChartJob<'_>,
    threads: Option<&[GlobalId]>,
    trace: &[u8],
) -> Result<TraceOutput, Fault<'a>>
    ensures charted { IfOk result (λ output.
        chosen_by machine.now chart.now ≡ Ok (option_copied threads.entry) →
        IsCharted chart.now text.now machine.now trace.now output.lines.items output.status) }
    ensures refused { IfOk result (λ output. IsRefusedAt machine.now trace.now output.refused) }
    ensures err { IfErr result (λ fault. (fault ≡ OutOfMemory) ⊎
        IsFaultOfTrace true machine.now trace.now fault) }
{
    let history = read_history(alloc, trace)?;
    Ok(history_chart(alloc, text, machine, chart, threads, &history)?)
}

/// What a chart comes to, for the trace that its source gives, of the machine that `text` declares.
pub(crate) fn chart_done<'a, T: Source>(
    alloc: Global,
    text: &[u8],
    machine: &Machine,
    chart: &ChartJob<'a>,
    trace: &mut T,
) -> Result<Done<'a>, Fault<'a>>
    ensures ok { IfOk result (λ done. (steps : List ℕ) × T.gives trace.old (Ok steps) ×
        IsChartDone chart.now text.now machine.now steps (output_of done)) }
    ensures err { IfErr result (λ fault. (fault ≡ OutOfMemory) ⊎
        IsChartFault chart.now machine.now (T.gives trace.old) fault) }
{
    let threads = listed_threads(alloc, machine, chart.threads)?;
    let steps = read_all(alloc, chart.trace, trace)?;
    let output = chart_output(
        alloc,
        text,
        machine,
        chart,
        list_of(&threads),
        steps.as_slice(),
    )?;
    Ok(output.into_done(alloc)?)
}
