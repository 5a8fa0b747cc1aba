//! The jobs that the words of a command line can ask for.
ghost use Rattle.std.specs.Prelude.{◌≡◌, ◌||◌};
ghost use Rattle.std.specs.Option.{option_copied};
ghost use Rattle.l4_commands.specs.Files.{alone, chart_on, expected_of, file_of, is_text, list_name};
ghost use Rattle.l4_commands.specs.Files.{may_be_painted, on_output, printed_on, second_file_of};
ghost use Rattle.l4_commands.specs.Files.{shown_name, text_chart_on};

/// The name that stands for the standard input. A file of that name is `./-`.
pub const INPUT: &str = "-";

/// A form of a chart.
#[derive(Clone, Copy, Debug, PartialEq, Eq)]
pub enum ChartForm {
    /// Text for a terminal that shows lines.
    Lines,
    /// Text for any terminal.
    Ascii,
    /// A picture, an SVG file that stands alone.
    Svg,
    /// A page, an HTML file that stands alone.
    Html,
    /// A sequence diagram of Mermaid.
    Mermaid,
}

impl ChartForm {
    /// Whether it is a text for a terminal.
    pub fn is_text(self) -> bool
        ensures { result ≡ is_text self }
    {
        match self {
            ChartForm::Lines | ChartForm::Ascii => true,
            ChartForm::Svg | ChartForm::Html | ChartForm::Mermaid => false,
        }
    }
}

/// A drawing of the steps of a trace, up to the first that is not possible.
#[derive(Clone, Copy, Debug, PartialEq, Eq)]
pub struct ChartJob<'a> {
    /// The name of the file with the machine text.
    pub file: &'a str,
    /// The name of the file with the trace.
    pub trace: &'a str,
    /// The first step that is shown, counted from 1.
    pub first: u64,
    /// The last step that is shown, counted from 1.
    pub last: u64,
    /// The ids of the threads that are shown, with commas between them. Without a list, all are.
    pub threads: Option<&'a str>,
    /// The form of the chart.
    pub form: ChartForm,
    /// The width of a text in columns of a terminal, or 0 for 80 columns.
    pub width: u64,
    /// Whether it is told what each step changes in registers.
    pub registers: bool,
    /// Whether steps that concern their thread alone, `local`, are left out.
    pub folds: bool,
}

/// Under whom a search lets the threads of a machine run.
#[derive(Clone, Copy, Debug, PartialEq, Eq)]
pub enum Scheduler {
    /// Under any scheduler, whatever time passes.
    Any,
    /// Under the processors of a replay: each takes its threads in turn, and each tick goes to the
    /// least deadline of its processor.
    Placed,
}

/// How many of the endings that are asked for should exist.
#[derive(Clone, Copy, Debug, PartialEq, Eq)]
pub enum Wanted {
    /// Any number.
    Whatever,
    /// None: if one is found, the status is 4.
    NoEnding,
    /// At least one: if there is none, the status is 4.
    AnEnding,
}

/// A chart as text, for a terminal.
#[derive(Clone, Copy, Debug, PartialEq, Eq)]
pub struct TextChart {
    /// Whether the terminal shows lines. Else the chart has characters of ASCII alone.
    pub shows_lines: bool,
    /// The width of the terminal in columns, or 0 for 80 columns.
    pub width: u64,
    /// Whether it is told what each step changes in registers.
    pub registers: bool,
}

/// A search for all endings of the machine text in a file.
#[derive(Clone, Copy, Debug, PartialEq, Eq)]
pub struct EndingsJob<'a> {
    /// The name of the file with the machine text.
    pub file: &'a str,
    /// Under whom its threads run.
    pub scheduler: Scheduler,
    /// The greatest number of steps but ticks of a history, or of entries of a schedule, 1 to
    /// 1,000,000. Any other number is the fault `Depth`.
    pub depth: u64,
    /// The greatest number of worlds, or of states, that are looked at, 1 to 100,000,000. Any other
    /// number is the fault `States`.
    pub states: u64,
    /// The most memory for them in MiB, 1 to 1,048,576. Any other number is the fault `Memory`.
    pub memory: u64,
    /// Whether to search only for endings in which a thread waits for ever.
    pub stuck: bool,
    /// The ids of the threads that may rest so, with commas between them. Without a list, none may.
    pub rests: Option<&'a str>,
    /// A line that the report of an ending must have, where there is one.
    pub with_line: Option<&'a str>,
    /// A line that the report of an ending must not have, where there is one.
    pub never: Option<&'a str>,
    /// How many such endings should exist.
    pub wanted: Wanted,
    /// The condition that no world on the way may meet, where it is asked whether one does in place
    /// of all endings.
    pub always: Option<&'a str>,
    /// The chart that is drawn of how each ending is come to, if one is.
    pub chart: Option<TextChart>,
    /// Whether to tell of each ending which thread waits for which.
    pub waits: bool,
    /// The name of the file with what is expected of each ending.
    pub expected: Option<&'a str>,
    /// The number of the ending whose trace is printed in place of all else, where one is asked
    /// for.
    pub trace: Option<u64>,
    /// Whether each line is told as an object of JSON.
    pub json: bool,
}

/// What is printed last of a run, a replay or an audit.
#[derive(Clone, Copy, Debug, PartialEq, Eq)]
pub struct Extras {
    /// Whether to print which thread waits for which, and the circles of waiting threads.
    pub waits: bool,
    /// Whether to print what each thread did, counted.
    pub counts: bool,
}

/// Nothing is printed last.
pub const NO_EXTRAS: Extras = Extras {
    waits: false,
    counts: false,
};

/// What is printed of a run or a replay.
#[derive(Clone, Copy, Debug, PartialEq, Eq)]
pub struct Printed {
    /// Whether the report is printed in place of the trace.
    pub report: bool,
    /// The chart that is drawn of the steps in place of the trace and the report, if one is.
    pub chart: Option<TextChart>,
    /// What is printed behind the trace, the report or the chart.
    pub extras: Extras,
    /// Whether each line is told as an object of JSON. That of a step tells more than its line.
    pub json: bool,
}

/// The trace is printed, and nothing behind it.
pub const TRACE_ALONE: Printed = Printed {
    report: false,
    chart: None,
    extras: NO_EXTRAS,
    json: false,
};

/// What is printed of an audit.
#[derive(Clone, Copy, Debug, PartialEq, Eq)]
pub struct Judged {
    /// Whether the report is printed, behind the line of a trace that passes. Where a step is not
    /// possible, it is that of the world before the step.
    pub report: bool,
    /// Whether to print why a step is not possible, and which steps are possible instead.
    pub explain: bool,
    /// What is printed last, where the trace passes.
    pub extras: Extras,
}

impl Judged {
    /// Whether anything is printed where a step is not possible.
    pub fn tells_refusals(&self) -> bool
        ensures { result ≡ (self.now.report || self.now.explain) }
    {
        self.report || self.explain
    }
}

/// A run of the machine text in a file until so many turns are taken or nothing is left to do.
#[derive(Clone, Copy, Debug, PartialEq, Eq)]
pub struct RunJob<'a> {
    /// The name of the file with the machine text.
    pub file: &'a str,
    /// The greatest number of turns, 1 to 1,000,000. Any other number is the fault `Turns`.
    pub turns: u64,
    /// What is printed.
    pub printed: Printed,
    /// The name of the file that its schedule is written to, if one is. A replay of that schedule
    /// repeats this run. It is never the file of the machine text.
    pub record_to: Option<&'a str>,
    /// The name of the file with what is expected of its report.
    pub expected: Option<&'a str>,
}

/// A replay of a schedule on the machine text in a file, which goes on from its end where
/// `then_rest` is given.
#[derive(Clone, Copy, Debug, PartialEq, Eq)]
pub struct ReplayJob<'a> {
    /// The name of the file with the machine text.
    pub file: &'a str,
    /// The items of the schedule, with commas between them, or `@` and the name of the file that
    /// has them.
    pub schedule: &'a str,
    /// For how many turns it goes on in rounds, if it does: 1 to 1,000,000 less the number of
    /// items. Any other number is the fault `Turns`.
    pub then_rest: Option<u64>,
    /// What is printed.
    pub printed: Printed,
    /// The name of the file that its schedule is written to, with the items of the rest, if one
    /// is. A replay of that schedule repeats this one. It is never the file of the machine text.
    pub record_to: Option<&'a str>,
    /// The name of the file with what is expected of its report.
    pub expected: Option<&'a str>,
}

/// What may happen next behind a schedule on the machine text in a file.
#[derive(Clone, Copy, Debug, PartialEq, Eq)]
pub struct NextJob<'a> {
    /// The name of the file with the machine text.
    pub file: &'a str,
    /// The schedule, as of `ReplayJob`.
    pub schedule: &'a str,
    /// Whether each line is told as an object of JSON.
    pub json: bool,
}

/// An audit of the trace in a file against the machine text in another.
#[derive(Clone, Copy, Debug, PartialEq, Eq)]
pub struct AuditJob<'a> {
    /// The name of the file with the machine text.
    pub file: &'a str,
    /// The name of the file with the trace.
    pub trace: &'a str,
    /// What is printed.
    pub judged: Judged,
    /// Whether each line is told as an object of JSON.
    pub json: bool,
}

/// All faults of the machine text in a file, or else what is doubtful there, and all faults of a
/// schedule for it.
#[derive(Clone, Copy, Debug, PartialEq, Eq)]
pub struct LintJob<'a> {
    /// The name of the file with the machine text.
    pub file: &'a str,
    /// The schedule, as of `ReplayJob`, where one is given.
    pub schedule: Option<&'a str>,
    /// Whether the line of a fault or a doubt begins with the name of the file.
    pub is_named: bool,
    /// Whether each line is told as an object of JSON.
    pub json: bool,
}

impl<'a> LintJob<'a> {
    /// The name that the line of a fault or a doubt begins with, if any.
    pub fn shown_name(&self) -> Option<&'a str>
        ensures { option_copied result ≡ shown_name self.now }
    {
        if self.is_named { Some(self.file) } else { None }
    }
}

/// A session on the machine text in a file, by the lines of the standard input.
#[derive(Clone, Copy, Debug, PartialEq, Eq)]
pub struct StepJob<'a> {
    /// The name of the file with the machine text.
    pub file: &'a str,
    /// How a chart is drawn where a line asks for one.
    pub chart: TextChart,
}

/// Where lines are painted, of a job whose lines may be painted.
#[derive(Clone, Copy, Debug, PartialEq, Eq)]
pub enum Colours {
    /// On a terminal, unless `NO_COLOR` is set.
    Auto,
    /// Wherever they go.
    Always,
    /// Nowhere.
    Never,
}

/// What the words of a command line ask for.
#[derive(Clone, Copy, Debug, PartialEq, Eq)]
pub enum Job<'a> {
    /// Run a machine text.
    Run(RunJob<'a>),
    /// Replay a schedule.
    Replay(ReplayJob<'a>),
    /// Tell what may happen next behind a schedule.
    Next(NextJob<'a>),
    /// Audit a trace.
    Audit(AuditJob<'a>),
    /// Draw a trace.
    Chart(ChartJob<'a>),
    /// Search for all endings of a machine text.
    Endings(EndingsJob<'a>),
    /// Report all that is wrong in a machine text.
    Lint(LintJob<'a>),
    /// Go through a machine step by step.
    Step(StepJob<'a>),
}

impl<'a> Job<'a> {
    /// The name of the file with the machine text.
    pub fn file(&self) -> &'a str
        ensures { result.now ≡ file_of self.now }
    {
        match *self {
            Job::Run(run) => run.file,
            Job::Replay(replay) => replay.file,
            Job::Next(next) => next.file,
            Job::Audit(audit) => audit.file,
            Job::Chart(chart) => chart.file,
            Job::Endings(search) => search.file,
            Job::Lint(lint) => lint.file,
            Job::Step(step) => step.file,
        }
    }

    /// The name of the file with the trace, with the schedule where that is in a file, or with the
    /// lines of a session. None where the job reads none of these.
    pub fn second_file(&self) -> Option<&'a str>
        ensures { option_copied result ≡ second_file_of self.now }
    {
        match *self {
            Job::Run(_) | Job::Endings(_) => None,
            Job::Replay(replay) => list_name(replay.schedule),
            Job::Next(next) => list_name(next.schedule),
            Job::Audit(audit) => Some(audit.trace),
            Job::Chart(chart) => Some(chart.trace),
            Job::Lint(lint) => list_name(lint.schedule?),
            Job::Step(_) => Some(INPUT),
        }
    }

    /// The name of the file with what is expected of it, if anything is.
    pub fn expected(&self) -> Option<&'a str>
        ensures { option_copied result ≡ expected_of self.now }
    {
        match *self {
            Job::Run(run) => run.expected,
            Job::Replay(replay) => replay.expected,
            Job::Endings(search) => search.expected,
            _ => None,
        }
    }

    /// Whether its lines may be painted: they are no objects of JSON, no picture, page or diagram,
    /// and no faults and doubts of a machine text.
    pub fn may_be_painted(&self) -> bool
        ensures { result ≡ may_be_painted self.now }
    {
        match *self {
            Job::Run(run) => !run.printed.json,
            Job::Replay(replay) => !replay.printed.json,
            Job::Next(next) => !next.json,
            Job::Audit(audit) => !audit.json,
            Job::Chart(chart) => chart.form.is_text(),
            Job::Endings(search) => !search.json,
            Job::Lint(_) => false,
            Job::Step(_) => true,
        }
    }

    /// The same job without a record, and of which nothing is expected.
    pub fn alone(&self) -> Job<'a>
        ensures { result ≡ alone self.now }
    {
        match *self {
            Job::Run(run) => Job::Run(RunJob {
                record_to: None,
                expected: None,
                ..run
            }),
            Job::Replay(replay) => Job::Replay(ReplayJob {
                record_to: None,
                expected: None,
                ..replay
            }),
            Job::Endings(search) => Job::Endings(EndingsJob {
                expected: None,
                ..search
            }),
            other => other,
        }
    }

    /// The same job for an output that may show lines, and is `columns` wide, or 0 if unknown.
    /// Where it shows no lines, a chart is drawn in ASCII. Where it does, a lint names its file,
    /// unless it tells objects of JSON.
    pub fn on_output(&self, shows_lines: bool, columns: u64) -> Job<'a>
        ensures { result ≡ on_output shows_lines columns self.now }
    {
        match *self {
            Job::Run(run) => Job::Run(RunJob {
                printed: printed_on(shows_lines, columns, run.printed),
                ..run
            }),
            Job::Replay(replay) => Job::Replay(ReplayJob {
                printed: printed_on(shows_lines, columns, replay.printed),
                ..replay
            }),
            Job::Chart(chart) => Job::Chart(ChartJob {
                form: if shows_lines || chart.form != ChartForm::Lines {
                    chart.form
                } else {
                    ChartForm::Ascii
                },
                width: if chart.width == 0 {
                    columns
                } else {
                    chart.width
                },
                ..chart
            }),
            Job::Endings(search) => Job::Endings(EndingsJob {
                chart: chart_on(shows_lines, columns, search.chart),
                ..search
            }),
            Job::Lint(lint) => Job::Lint(LintJob {
                is_named: shows_lines && !lint.json,
                ..lint
            }),
            Job::Step(step) => Job::Step(StepJob {
                chart: text_chart_on(shows_lines, columns, step.chart),
                ..step
            }),
            other => other,
        }
    }
}

// A chart for an output that may show lines, and is so many columns wide.
fn text_chart_on(shows_lines: bool, columns: u64, chart: TextChart) -> TextChart
    ensures { result ≡ text_chart_on shows_lines columns chart }
{
    TextChart {
        shows_lines,
        width: columns,
        ..chart
    }
}

// The same, where one is drawn.
fn chart_on(shows_lines: bool, columns: u64, chart: Option<TextChart>) -> Option<TextChart>
    ensures { result ≡ chart_on shows_lines columns chart }
{
    Some(text_chart_on(shows_lines, columns, chart?))
}

// What is printed of a run or a replay, with its chart for such an output.
fn printed_on(shows_lines: bool, columns: u64, printed: Printed) -> Printed
    ensures { result ≡ printed_on shows_lines columns printed }
{
    Printed {
        chart: chart_on(shows_lines, columns, printed.chart),
        ..printed
    }
}

/// The name of the file that has the schedule: what follows a first `@`. None where there is no
/// `@`.
pub fn list_name(schedule: &str) -> Option<&str>
    ensures { option_copied result ≡ list_name schedule.now }
{
    schedule.strip_prefix('@')
}
