//! What the words of the command line ask for.
ghost use Rattle.std.specs.Prelude.{◌≡◌, ◌∷◌, [], IfOk, IfErr, IfSome, Some, map};
ghost use Rattle.std.specs.String.{string_bytes};
ghost use Rattle.clap.specs.Words.{subcommand_of, subcommand_rows_of, kind_of};
ghost use Rattle.clap.specs.declared.error.kind.ErrorKind.TheVariants.{OutOfMemory as MemoryKind};
ghost use Rattle.clap.specs.declared.error.kind.ErrorKind.TheVariants.{ArgumentConflict};
ghost use Rattle.l4_commands.specs.Asked.{IsAsked, IsJobIn, colours_asked, colours_found};
ghost use Rattle.l4_commands.specs.Asked.{line_text, reason, told_of};
ghost use Rattle.l4_commands.specs.Asked.{usage_text};
ghost use Rattle.l4_commands.specs.Asked.{wrong_in};
ghost use Rattle.l4_commands.specs.Asked.{IsRefusal, Tells};
ghost use Rattle.l4_commands.specs.Commands.{l4run_app, faults_of};
ghost use Rattle.l4_commands.specs.declared.words.WordsFault.TheVariants.{NoMemory as OutOfMemory};

use crate::asked::{Conflict, colours_of_matches, conflict_in, job_of_matches};
use crate::commands::l4run_command;
use crate::job::{Colours, Job};
use crate::texts::{DELETED_LINE, NUMBER_LINE, UNKNOWN_LINE};
use clap::error::ErrorKind;
use clap::{ArgMatches, Error};
use l4_lines::lines::LineFault;
use std::alloc::{AllocError, Global};

/// Why the words ask for no job.
#[derive(Debug, Drop)]
pub enum WordsFault {
    /// The words ask for help or for the version. This is its text.
    Help(String),
    /// The words are wrong. The text says what is wrong, and how they are used.
    Usage(String),
    /// Memory was refused.
    NoMemory,
}

impl From<AllocError> for WordsFault {
    ghost from_gives = { λ _ fault. fault ≡ OutOfMemory };

    fn from(_: AllocError) -> WordsFault {
        WordsFault::NoMemory
    }
}

fn fault_of(alloc: Global, error: &Error) -> WordsFault
    ensures refusal { IsRefusal (kind_of error.now ∷ []) result }
    ensures memory { kind_of error.now ≡ MemoryKind → result ≡ OutOfMemory }
{
    if matches!(error.kind(), ErrorKind::OutOfMemory) {
        return WordsFault::NoMemory;
    }
    match format!(in alloc; "{error}") {
        Ok(text) if error.use_stderr() => WordsFault::Usage(text),
        Ok(text) => WordsFault::Help(text),
        Err(_) => WordsFault::NoMemory,
    }
}

// The matches of the words.
fn matches_of<'a>(alloc: Global, words: &'a [&'a str]) -> Result<ArgMatches<'a>, WordsFault>
    ensures ok { IfOk result (λ matches.
        subcommand_rows_of matches ≡ subcommand_of l4run_app (map (λ word. word.now) words.now)) }
    ensures right { IfOk result (λ matches. faults_of (map (λ word. word.now) words.now) ≡ []) }
    ensures err { IfErr result (IsRefusal (faults_of (map (λ word. word.now) words.now))) }
{
    let command = l4run_command(alloc)?;
    match command.try_get_matches_from(words) {
        Ok(matches) => Ok(matches),
        Err(error) => Err(fault_of(alloc, &error)),
    }
}

// Why a line can't be searched for.
fn reason(fault: LineFault) -> &'static str
    ensures { result.now ≡ reason fault }
{
    match fault {
        LineFault::Unknown => UNKNOWN_LINE,
        LineFault::Deleted => DELETED_LINE,
        LineFault::Number => NUMBER_LINE,
    }
}

fn line_text(alloc: Global, line: &str, reason: &str) -> Result<String, AllocError>
    ensures { IfOk result (λ text. string_bytes text ≡ line_text line.now reason.now) }
{
    format!(in alloc; "error: invalid line '{line}': {reason}")
}

// The usage text for a conflict of arguments.
fn conflict_text(alloc: Global, conflict: Conflict<'_>) -> Result<String, AllocError>
    ensures { IfOk result (λ text. string_bytes text ≡ usage_text conflict.entry) }
{
    match conflict {
        Conflict::Arguments(text) => String::from_str(alloc, text),
        Conflict::Line(line, fault) => line_text(alloc, line, reason(fault)),
    }
}

// Words that exclude each other are wrong usage.
fn usage_of(alloc: Global, conflict: Conflict<'_>) -> WordsFault
    ensures refusal { IsRefusal (ArgumentConflict ∷ []) result }
    ensures told { Tells (Some (usage_text conflict.entry)) result }
{
    match conflict_text(alloc, conflict) {
        Ok(text) => WordsFault::Usage(text),
        Err(_) => WordsFault::NoMemory,
    }
}

/// What the words of a command line ask for.
#[derive(Clone, Copy, Debug, PartialEq, Eq)]
pub struct Asked<'a> {
    /// The job.
    pub job: Job<'a>,
    /// Where its lines are painted.
    pub colours: Colours,
}

// What the matches ask for, whose arguments do not exclude each other.
fn asked_in<'a>(matches: &ArgMatches<'a>) -> Option<Asked<'a>>
    ensures job { IfSome result (λ asked. IsJobIn (subcommand_rows_of matches.now) asked.job) }
    ensures colours { IfSome result (λ asked.
        Some asked.colours ≡ colours_found (subcommand_rows_of matches.now)) }
{
    Some(Asked {
        job: job_of_matches(matches)?,
        colours: colours_of_matches(matches)?,
    })
}

/// Reads the words of a command line, of which the first is the program's name.
///
/// `Help`: they ask for help, or for the version. `Usage`: they are wrong. `NoMemory`: memory was
/// refused, which says nothing about the words. Where `clap` accepts the words, a usage text is that
/// of the first conflict that they have.
pub fn asked_of<'a>(alloc: Global, words: &'a [&'a str]) -> Result<Asked<'a>, WordsFault>
    ensures ok { IfOk result (λ asked. IsAsked (map (λ word. word.now) words.now) asked.job) }
    ensures colours { IfOk result (λ asked.
        Some asked.colours ≡ colours_asked (map (λ word. word.now) words.now)) }
    ensures right { IfOk result (λ asked. wrong_in (map (λ word. word.now) words.now) ≡ []) }
    ensures err { IfErr result (IsRefusal (wrong_in (map (λ word. word.now) words.now))) }
    ensures told { IfErr result (λ fault. faults_of (map (λ word. word.now) words.now) ≡ []
        → Tells (told_of (map (λ word. word.now) words.now)) fault) }
{
    let matches = matches_of(alloc, words)?;
    if let Some(conflict) = conflict_in(&matches) {
        return Err(usage_of(alloc, conflict));
    }
    asked_in(&matches).ok_or(WordsFault::NoMemory)
}

/// The job of `asked_of`, for whoever paints no lines.
pub fn job_of<'a>(alloc: Global, words: &'a [&'a str]) -> Result<Job<'a>, WordsFault>
    ensures ok { IfOk result (IsAsked (map (λ word. word.now) words.now)) }
    ensures right { IfOk result (λ job. wrong_in (map (λ word. word.now) words.now) ≡ []) }
    ensures err { IfErr result (IsRefusal (wrong_in (map (λ word. word.now) words.now))) }
    ensures told { IfErr result (λ fault. faults_of (map (λ word. word.now) words.now) ≡ []
        → Tells (told_of (map (λ word. word.now) words.now)) fault) }
{
    match asked_of(alloc, words) {
        Ok(asked) => Ok(asked.job),
        Err(fault) => Err(fault),
    }
}
