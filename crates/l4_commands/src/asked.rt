//! The job that clap's matches of the words ask for.
ghost use Rattle.std.specs.Prelude.{◌≡◌, IfSome, Some};
ghost use Rattle.std.specs.Prelude.{option_and_then, option_map};
ghost use Rattle.std.specs.Option.{option_copied};
ghost use Rattle.clap.specs.Words.{first_of, subcommand_rows_of};
ghost use Rattle.l4_commands.specs.Asked.{IsAuditOf, IsChartOf, IsJobIn, IsLintOf, IsNextOf};
ghost use Rattle.l4_commands.specs.Asked.{IsReplayOf, IsRunOf, IsSearchOf, are_two, chart_told};
ghost use Rattle.l4_commands.specs.Asked.{colours_found, colours_in, colours_of};
ghost use Rattle.l4_commands.specs.Asked.{endings_told, extras_in, flags_in, form_of, has_flag};
ghost use Rattle.l4_commands.specs.Asked.{has_rests_alone, has_turns_alone, has_value, is_input_of};
ghost use Rattle.l4_commands.specs.Asked.{is_next_beside};
ghost use Rattle.l4_commands.specs.Asked.{chart_in, drawn_told, has_registers_alone};
ghost use Rattle.l4_commands.specs.Asked.{is_always_beside, is_chart_beside};
ghost use Rattle.l4_commands.specs.Asked.{is_chart_and_json, is_none_and_some, is_over_file, is_same};
ghost use Rattle.l4_commands.specs.Asked.{is_trace_beside, judged_in, line_told, lines_chart, lines_told};
ghost use Rattle.l4_commands.specs.Asked.{lists_input, names_input, names_input_twice, number_in};
ghost use Rattle.l4_commands.specs.Asked.{printed_in, record_told, replay_told, rest_in, rows_in};
ghost use Rattle.l4_commands.specs.Asked.{run_told, scheduler_by, text_chart, told_in, traced_in, usage_text};
ghost use Rattle.l4_commands.specs.Asked.{IsStepOf, step_told, wanted_by};

use crate::job::{
    AuditJob, ChartForm, ChartJob, Colours, EndingsJob, Extras, INPUT, Job, Judged, LintJob,
    NextJob, Printed, ReplayJob, RunJob, Scheduler, StepJob, TextChart, Wanted, list_name,
};
use crate::texts::{
    ALWAYS_BESIDE, CHART_AND_JSON, CHART_BESIDE, COLOUR_WORDS, INPUT_OF_STEPS, INPUT_TWICE,
    NEXT_BESIDE, NONE_AND_SOME, OVER_ITS_FILE, RECORD_AND_EXPECT, REGISTERS_ALONE, RESTS_ALONE,
    SCHEDULE_OF_RUN, TRACE_BESIDE, TURNS_ALONE, TWO_FORMS,
};
use clap::ArgMatches;
use l4_lines::lines::{LineFault, line_fault};

// The first value of this argument.
fn text<'a>(matches: &ArgMatches<'a>, name: &str) -> Option<&'a str>
    ensures { option_copied result ≡ first_of name.now (rows_in matches.now) }
{
    matches.get_str(name)
}

// The number that was given for this argument, or its default.
fn number(matches: &ArgMatches<'_>, name: &str) -> Option<u64>
    ensures { IfSome result (λ number. Some number ≡ number_in name.now (rows_in matches.now)) }
{
    let number = matches.get_one::<u64>(name)?;
    Some(number)
}

// Whether a flag is on.
fn has_flag(matches: &ArgMatches<'_>, name: &str) -> bool
    ensures { result ≡ has_flag name.now (rows_in matches.now) }
{
    match matches.get_one::<bool>(name) {
        Some(given) => given,
        None => false,
    }
}

// Whether an option that takes a value was given one.
fn has_value(matches: &ArgMatches<'_>, name: &str) -> bool
    ensures { result ≡ has_value name.now (rows_in matches.now) }
{
    text(matches, name).is_some()
}

// What is printed last.
fn extras(matches: &ArgMatches<'_>) -> Extras
    ensures { result ≡ extras_in (rows_in matches.now) }
{
    Extras {
        waits: has_flag(matches, "waits"),
        counts: has_flag(matches, "counts"),
    }
}

// A chart for a terminal that shows lines.
fn lines_chart(registers: bool) -> TextChart
    ensures { result ≡ lines_chart registers }
{
    TextChart {
        shows_lines: true,
        width: 0,
        registers,
    }
}

// The chart that is drawn, if one is.
fn text_chart(asked: bool, registers: bool) -> Option<TextChart>
    ensures { result ≡ text_chart asked registers }
{
    asked.then_some(lines_chart(registers))
}

// The chart that these words ask for.
fn asked_chart(matches: &ArgMatches<'_>) -> Option<TextChart>
    ensures { result ≡ chart_in (rows_in matches.now) }
{
    text_chart(has_flag(matches, "chart"), has_flag(matches, "registers"))
}

// What `run` and `replay` print.
fn outputs(matches: &ArgMatches<'_>) -> Printed
    ensures { result ≡ printed_in (rows_in matches.now) }
{
    let chart = asked_chart(matches);
    Printed {
        report: has_flag(matches, "report"),
        chart,
        extras: extras(matches),
        json: has_flag(matches, "json"),
    }
}

// What `audit` prints.
fn audit_outputs(matches: &ArgMatches<'_>) -> Judged
    ensures { result ≡ judged_in (rows_in matches.now) }
{
    Judged {
        report: has_flag(matches, "report"),
        explain: has_flag(matches, "explain"),
        extras: extras(matches),
    }
}

fn run_job<'a>(matches: &ArgMatches<'a>) -> Option<RunJob<'a>>
    ensures { IfSome result (IsRunOf (rows_in matches.now)) }
{
    Some(RunJob {
        file: text(matches, "file")?,
        turns: number(matches, "turns")?,
        printed: outputs(matches),
        record_to: text(matches, "record"),
        expected: text(matches, "expect"),
    })
}

// The number of turns that a replay goes on for where `--turns` is not given.
const DEFAULT_TURNS: u64 = 100_000;

// For how many turns a replay goes on: `Some(None)` without `--then-rest`. None where `--turns` is
// given without it.
fn rest(matches: &ArgMatches<'_>) -> Option<Option<u64>>
    ensures { IfSome result (λ rest. Some rest ≡ rest_in (rows_in matches.now)) }
{
    match (has_flag(matches, "then-rest"), text(matches, "turns")) {
        (false, None) => Some(None),
        (false, Some(_)) => None,
        (true, None) => Some(Some(DEFAULT_TURNS)),
        (true, Some(_)) => Some(Some(number(matches, "turns")?)),
    }
}

fn replay_job<'a>(matches: &ArgMatches<'a>) -> Option<ReplayJob<'a>>
    ensures { IfSome result (IsReplayOf (rows_in matches.now)) }
{
    let record_to = text(matches, "record");
    Some(ReplayJob {
        file: text(matches, "file")?,
        schedule: text(matches, "schedule")?,
        then_rest: rest(matches)?,
        printed: outputs(matches),
        record_to,
        expected: text(matches, "expect"),
    })
}

fn next_job<'a>(matches: &ArgMatches<'a>) -> Option<NextJob<'a>>
    ensures { IfSome result (IsNextOf (rows_in matches.now)) }
{
    let file = text(matches, "file")?;
    let schedule = text(matches, "schedule")?;
    let json = has_flag(matches, "json");
    Some(NextJob {
        file,
        schedule,
        json,
    })
}

fn audit_job<'a>(matches: &ArgMatches<'a>) -> Option<AuditJob<'a>>
    ensures { IfSome result (IsAuditOf (rows_in matches.now)) }
{
    Some(AuditJob {
        file: text(matches, "file")?,
        trace: text(matches, "trace")?,
        judged: audit_outputs(matches),
        json: has_flag(matches, "json"),
    })
}

/// Which form flags of `chart` were given.
#[derive(Clone, Copy)]
pub struct Flags {
    ascii: bool,
    svg: bool,
    html: bool,
    mermaid: bool,
}

fn given_flags(matches: &ArgMatches<'_>) -> Flags
    ensures { result ≡ flags_in (rows_in matches.now) }
{
    Flags {
        ascii: has_flag(matches, "ascii"),
        svg: has_flag(matches, "svg"),
        html: has_flag(matches, "html"),
        mermaid: has_flag(matches, "mermaid"),
    }
}

// The form of a chart. None where two are asked for.
fn form_of(flags: &Flags) -> Option<ChartForm>
    ensures { result ≡ form_of flags.now }
{
    match (flags.ascii, flags.svg, flags.html, flags.mermaid) {
        (false, false, false, false) => Some(ChartForm::Lines),
        (true, false, false, false) => Some(ChartForm::Ascii),
        (false, true, false, false) => Some(ChartForm::Svg),
        (false, false, true, false) => Some(ChartForm::Html),
        (false, false, false, true) => Some(ChartForm::Mermaid),
        _ => None,
    }
}

fn chart_job<'a>(matches: &ArgMatches<'a>) -> Option<ChartJob<'a>>
    ensures { IfSome result (IsChartOf (rows_in matches.now)) }
{
    Some(ChartJob {
        file: text(matches, "file")?,
        trace: text(matches, "trace")?,
        first: number(matches, "from")?,
        last: number(matches, "to")?,
        threads: text(matches, "threads"),
        form: form_of(&given_flags(matches))?,
        width: number(matches, "width")?,
        registers: has_flag(matches, "registers"),
        folds: has_flag(matches, "fold"),
    })
}

// Under whom threads run.
fn scheduler_by(placed: bool) -> Scheduler
    ensures { result ≡ scheduler_by placed }
{
    if placed {
        Scheduler::Placed
    } else {
        Scheduler::Any
    }
}

// How many endings should exist, by the flags `--none` and `--some`. None where both are given.
fn wanted_by(none: bool, some: bool) -> Option<Wanted>
    ensures { result ≡ wanted_by none some }
{
    match (none, some) {
        (false, false) => Some(Wanted::Whatever),
        (true, false) => Some(Wanted::NoEnding),
        (false, true) => Some(Wanted::AnEnding),
        (true, true) => None,
    }
}

// The number of the ending whose trace is asked for: `Some(None)` where none is.
fn trace_number(matches: &ArgMatches<'_>) -> Option<Option<u64>>
    ensures { IfSome result (λ traced. Some traced ≡ traced_in (rows_in matches.now)) }
{
    match text(matches, "trace") {
        None => Some(None),
        Some(_) => Some(Some(number(matches, "trace")?)),
    }
}

fn endings_job<'a>(matches: &ArgMatches<'a>) -> Option<EndingsJob<'a>>
    ensures { IfSome result (IsSearchOf (rows_in matches.now)) }
{
    Some(EndingsJob {
        file: text(matches, "file")?,
        scheduler: scheduler_by(has_flag(matches, "placed")),
        depth: number(matches, "depth")?,
        states: number(matches, "states")?,
        memory: number(matches, "memory")?,
        stuck: has_flag(matches, "stuck"),
        rests: text(matches, "rests"),
        with_line: text(matches, "with"),
        never: text(matches, "never"),
        wanted: wanted_by(has_flag(matches, "none"), has_flag(matches, "some"))?,
        always: text(matches, "always"),
        chart: asked_chart(matches),
        waits: has_flag(matches, "waits"),
        expected: text(matches, "expect"),
        trace: trace_number(matches)?,
        json: has_flag(matches, "json"),
    })
}

fn lint_job<'a>(matches: &ArgMatches<'a>) -> Option<LintJob<'a>>
    ensures { IfSome result (IsLintOf (rows_in matches.now)) }
{
    Some(LintJob {
        file: text(matches, "file")?,
        schedule: text(matches, "schedule"),
        is_named: false,
        json: has_flag(matches, "json"),
    })
}

fn step_job<'a>(matches: &ArgMatches<'a>) -> Option<StepJob<'a>>
    ensures { IfSome result (IsStepOf (rows_in matches.now)) }
{
    Some(StepJob {
        file: text(matches, "file")?,
        chart: lines_chart(has_flag(matches, "registers")),
    })
}

// The job of the command that was named, whose arguments do not exclude each other.
pub fn job_of_matches<'a>(matches: &ArgMatches<'a>) -> Option<Job<'a>>
    ensures { IfSome result (IsJobIn (subcommand_rows_of matches.now)) }
{
    let (name, matches) = matches.subcommand()?;
    match name {
        "run" => Some(Job::Run(run_job(matches)?)),
        "replay" if has_flag(matches, "next") => Some(Job::Next(next_job(matches)?)),
        "replay" => Some(Job::Replay(replay_job(matches)?)),
        "audit" => Some(Job::Audit(audit_job(matches)?)),
        "chart" => Some(Job::Chart(chart_job(matches)?)),
        "endings" => Some(Job::Endings(endings_job(matches)?)),
        "lint" => Some(Job::Lint(lint_job(matches)?)),
        "step" => Some(Job::Step(step_job(matches)?)),
        _ => None,
    }
}

// Where lines are painted, by the word of `--color`. None by any other word.
fn colours_of(word: &str) -> Option<Colours>
    ensures { result ≡ colours_of word.now }
{
    match word {
        "auto" => Some(Colours::Auto),
        "always" => Some(Colours::Always),
        "never" => Some(Colours::Never),
        _ => None,
    }
}

// Where lines are painted. None where `--color` has a word that does not say so.
fn colours(matches: &ArgMatches<'_>) -> Option<Colours>
    ensures { result ≡ colours_in (rows_in matches.now) }
{
    match text(matches, "color") {
        Some(word) => colours_of(word),
        None => Some(Colours::Auto),
    }
}

// Where the lines of the command that was named are painted.
pub fn colours_of_matches(matches: &ArgMatches<'_>) -> Option<Colours>
    ensures { result ≡ colours_found (subcommand_rows_of matches.now) }
{
    let (_, command) = matches.subcommand()?;
    colours(command)
}

/// Why words that `clap` accepts ask for no job.
#[derive(Clone, Copy, Debug)]
pub enum Conflict<'a> {
    /// Its arguments exclude each other. This is what is told of them.
    Arguments(&'static str),
    /// `--with` or `--never` of `endings` gives this line, which it can't search for, and why.
    Line(&'a str, LineFault),
}

// Whether both names are given and are those of one file. `-` is a file where it is written, and the
// standard input where it is read.
fn is_same(file: Option<&str>, name: Option<&str>) -> bool
    ensures { result ≡ is_same (option_copied file.entry) (option_copied name.entry) }
{
    match (file, name) {
        (Some(file), Some(name)) => name == file && file != INPUT,
        _ => false,
    }
}

// Whether `--record` names the file of the machine text, and so would overwrite it.
fn is_over_file(matches: &ArgMatches<'_>) -> bool
    ensures { result ≡ is_over_file (rows_in matches.now) }
{
    is_same(text(matches, "file"), text(matches, "record"))
}

// Why there can be no such record.
fn record_conflict<'a>(matches: &ArgMatches<'a>) -> Option<Conflict<'a>>
    ensures { option_map usage_text result ≡ record_told (rows_in matches.now) }
{
    if is_over_file(matches) {
        return Some(Conflict::Arguments(OVER_ITS_FILE));
    }
    if has_value(matches, "record") && has_value(matches, "expect") {
        return Some(Conflict::Arguments(RECORD_AND_EXPECT));
    }
    None
}

// Whether a chart is asked for beside a report or objects.
fn is_chart_beside(matches: &ArgMatches<'_>) -> bool
    ensures { result ≡ is_chart_beside (rows_in matches.now) }
{
    has_flag(matches, "chart") && (has_flag(matches, "report") || has_flag(matches, "json"))
}

// Whether `--registers` is given without the `--chart` that it is about.
fn has_registers_alone(matches: &ArgMatches<'_>) -> bool
    ensures { result ≡ has_registers_alone (rows_in matches.now) }
{
    has_flag(matches, "registers") && !has_flag(matches, "chart")
}

// Why there can be no such chart, or no such record.
fn drawn_conflict<'a>(matches: &ArgMatches<'a>) -> Option<Conflict<'a>>
    ensures { option_map usage_text result ≡ drawn_told (rows_in matches.now) }
{
    if is_chart_beside(matches) {
        return Some(Conflict::Arguments(CHART_BESIDE));
    }
    if has_registers_alone(matches) {
        return Some(Conflict::Arguments(REGISTERS_ALONE));
    }
    record_conflict(matches)
}

// Which arguments of `run` exclude each other, or the one that it does not take.
fn run_conflict<'a>(matches: &ArgMatches<'a>) -> Option<Conflict<'a>>
    ensures { option_map usage_text result ≡ run_told (rows_in matches.now) }
{
    if has_value(matches, "schedule") {
        return Some(Conflict::Arguments(SCHEDULE_OF_RUN));
    }
    drawn_conflict(matches)
}

// Whether `replay` is given `--next` beside what it is printed in place of.
fn is_next_beside(matches: &ArgMatches<'_>) -> bool
    ensures { result ≡ is_next_beside (rows_in matches.now) }
{
    has_flag(matches, "next")
        && (has_flag(matches, "then-rest")
            || has_value(matches, "turns")
            || has_flag(matches, "report")
            || has_flag(matches, "chart")
            || has_flag(matches, "waits")
            || has_flag(matches, "counts")
            || has_value(matches, "record")
            || has_value(matches, "expect"))
}

// Whether `replay` is given `--turns` without `--then-rest`.
fn has_turns_alone(matches: &ArgMatches<'_>) -> bool
    ensures { result ≡ has_turns_alone (rows_in matches.now) }
{
    has_value(matches, "turns") && !has_flag(matches, "then-rest")
}

// Which arguments of `replay` exclude each other.
fn replay_conflict<'a>(matches: &ArgMatches<'a>) -> Option<Conflict<'a>>
    ensures { option_map usage_text result ≡ replay_told (rows_in matches.now) }
{
    if is_next_beside(matches) {
        return Some(Conflict::Arguments(NEXT_BESIDE));
    }
    if has_turns_alone(matches) {
        return Some(Conflict::Arguments(TURNS_ALONE));
    }
    drawn_conflict(matches)
}

// Whether `chart` is asked for two forms.
fn chart_conflict<'a>(matches: &ArgMatches<'a>) -> Option<Conflict<'a>>
    ensures { option_map usage_text result ≡ chart_told (rows_in matches.now) }
{
    if form_of(&given_flags(matches)).is_none() {
        return Some(Conflict::Arguments(TWO_FORMS));
    }
    None
}

// Why this line can't be searched for, where one is given.
fn line_conflict<'a>(line: Option<&'a str>) -> Option<Conflict<'a>>
    ensures { option_map usage_text result ≡ line_told (option_copied line.entry) }
{
    let line = line?;
    let fault = line_fault(line)?;
    Some(Conflict::Line(line, fault))
}

// The first line of `--with` and `--never` that can't be searched for.
fn wrong_line<'a>(matches: &ArgMatches<'a>) -> Option<Conflict<'a>>
    ensures { option_map usage_text result ≡ lines_told (rows_in matches.now) }
{
    match line_conflict(text(matches, "with")) {
        Some(conflict) => Some(conflict),
        None => line_conflict(text(matches, "never")),
    }
}

// Whether `--rests` is given without the `--stuck` that it is about.
fn has_rests_alone(matches: &ArgMatches<'_>) -> bool
    ensures { result ≡ has_rests_alone (rows_in matches.now) }
{
    has_value(matches, "rests") && !has_flag(matches, "stuck")
}

// Whether `--none` and `--some` are both given.
fn is_none_and_some(matches: &ArgMatches<'_>) -> bool
    ensures { result ≡ is_none_and_some (rows_in matches.now) }
{
    has_flag(matches, "none") && has_flag(matches, "some")
}

// Whether `--trace` is given beside what it is printed in place of.
fn is_trace_beside(matches: &ArgMatches<'_>) -> bool
    ensures { result ≡ is_trace_beside (rows_in matches.now) }
{
    has_value(matches, "trace")
        && (has_flag(matches, "placed")
            || has_flag(matches, "some")
            || has_flag(matches, "chart")
            || has_flag(matches, "waits")
            || has_value(matches, "expect"))
}

// Whether `--always` is given beside what asks for endings.
fn is_always_beside(matches: &ArgMatches<'_>) -> bool
    ensures { result ≡ is_always_beside (rows_in matches.now) }
{
    has_value(matches, "always")
        && (has_flag(matches, "some")
            || has_flag(matches, "none")
            || has_value(matches, "with")
            || has_value(matches, "never")
            || has_flag(matches, "stuck")
            || has_flag(matches, "placed")
            || has_flag(matches, "chart")
            || has_flag(matches, "waits")
            || has_value(matches, "expect"))
}

// Whether `--chart` and `--json` are both given.
fn is_chart_and_json(matches: &ArgMatches<'_>) -> bool
    ensures { result ≡ is_chart_and_json (rows_in matches.now) }
{
    has_flag(matches, "chart") && has_flag(matches, "json")
}

// Which arguments of `endings` exclude each other, or the line that can't be searched for.
fn endings_conflict<'a>(matches: &ArgMatches<'a>) -> Option<Conflict<'a>>
    ensures { option_map usage_text result ≡ endings_told (rows_in matches.now) }
{
    if let Some(conflict) = wrong_line(matches) {
        return Some(conflict);
    }
    if is_always_beside(matches) {
        return Some(Conflict::Arguments(ALWAYS_BESIDE));
    }
    if has_rests_alone(matches) {
        return Some(Conflict::Arguments(RESTS_ALONE));
    }
    if is_none_and_some(matches) {
        return Some(Conflict::Arguments(NONE_AND_SOME));
    }
    if is_trace_beside(matches) {
        return Some(Conflict::Arguments(TRACE_BESIDE));
    }
    if is_chart_and_json(matches) {
        return Some(Conflict::Arguments(CHART_AND_JSON));
    }
    if has_registers_alone(matches) {
        return Some(Conflict::Arguments(REGISTERS_ALONE));
    }
    None
}

// Whether a name is that of the standard input.
fn is_input(name: Option<&str>) -> bool
    ensures { result ≡ is_input_of (option_copied name.entry) }
{
    match name {
        Some(name) => name == INPUT,
        None => false,
    }
}

// Whether this argument names the standard input.
fn names_input(matches: &ArgMatches<'_>, name: &str) -> bool
    ensures { result ≡ names_input name.now (rows_in matches.now) }
{
    is_input(text(matches, name))
}

// Whether the list of a schedule is the standard input.
fn lists_input(matches: &ArgMatches<'_>) -> bool
    ensures { result ≡ lists_input (rows_in matches.now) }
{
    match text(matches, "schedule") {
        Some(schedule) => is_input(list_name(schedule)),
        None => false,
    }
}

// Whether at least two of three hold.
fn are_two(first: bool, second: bool, third: bool) -> bool
    ensures { result ≡ are_two first second third }
{
    first && (second || third) || second && third
}

// Whether two files are the standard input.
fn names_input_twice(matches: &ArgMatches<'_>) -> bool
    ensures { result ≡ names_input_twice (rows_in matches.now) }
{
    are_two(
        names_input(matches, "file"),
        names_input(matches, "trace") || lists_input(matches),
        names_input(matches, "expect"),
    )
}

// Why there can be no session on the text that is named.
fn step_conflict<'a>(matches: &ArgMatches<'a>) -> Option<Conflict<'a>>
    ensures { option_map usage_text result ≡ step_told (rows_in matches.now) }
{
    if names_input(matches, "file") {
        return Some(Conflict::Arguments(INPUT_OF_STEPS));
    }
    None
}

// Why the arguments of this command ask for no job.
fn conflict_of<'a>(name: &str, matches: &ArgMatches<'a>) -> Option<Conflict<'a>>
    ensures { option_map usage_text result ≡ told_in (name.now, rows_in matches.now) }
{
    if names_input_twice(matches) {
        return Some(Conflict::Arguments(INPUT_TWICE));
    }
    if colours(matches).is_none() {
        return Some(Conflict::Arguments(COLOUR_WORDS));
    }
    match name {
        "run" => run_conflict(matches),
        "replay" => replay_conflict(matches),
        "chart" => chart_conflict(matches),
        "endings" => endings_conflict(matches),
        "step" => step_conflict(matches),
        _ => None,
    }
}

// Why the arguments of the command that was named ask for no job.
pub fn conflict_in<'a>(matches: &ArgMatches<'a>) -> Option<Conflict<'a>>
    ensures { option_map usage_text result
        ≡ option_and_then told_in (subcommand_rows_of matches.now) }
{
    let (name, command) = matches.subcommand()?;
    conflict_of(name, command)
}
