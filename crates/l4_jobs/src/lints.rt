//! What a lint comes to: the faults and doubts of a machine text, and the faults of a list for it.
ghost use Rattle.std.specs.Prelude.{◌≡◌, ◌==◌, ◌++◌, ◌⊎◌, [], ℕ, List, IfOk, IfErr, Ok, length};
ghost use Rattle.std.specs.Prelude.{None, if◌then◌else◌, IsSomeAnd};
ghost use Rattle.std.specs.Option.{option_copied};
ghost use Rattle.l4_commands.specs.Files.{list_name, list_name_in, shown_name};
ghost use Rattle.l4_lint.specs.Faults.{faults_of};
ghost use Rattle.l4_schedules.specs.Faulty.{faults_text, file_faults};
ghost use Rattle.l4_jobs.specs.Inputs.{FailsWith, IsRead};
ghost use Rattle.l4_jobs.specs.Lints.{IsLinted, IsListLinted, named_faults};
ghost use Rattle.l4_jobs.specs.Outputs.{output_of};
ghost use Rattle.l4_jobs.specs.declared.fault.Fault.TheVariants.{NoMemory as OutOfMemory};

use crate::done::Done;
use crate::fault::Fault;
use crate::job::{LintJob, list_name};
use crate::reading::read_list;
use crate::streams::Source;
use l4_lint::lint::lint_with_doubts;
use l4_schedules::faulty::{write_file_faults, write_list_faults};
use l4_script::machine::Machine;
use l4_types::errors::NoMemory;
use std::alloc::Global;

/// What a lint of a text alone comes to. `file` is the name that its lines begin with, if any.
pub(crate) fn lint_done<'a>(
    alloc: Global,
    file: Option<&str>,
    text: &[u8],
) -> Result<Done<'a>, NoMemory>
    ensures { IfOk result (λ done.
        IsLinted (option_copied file.entry) text.now (output_of done)) }
{
    let lint = lint_with_doubts(alloc, file, text)?;
    Ok(Done {
        lines: lint.lines,
        list: None,
        said: Vec::new(alloc),
        status: lint.status,
    })
}

// Appends the faults of the list in the file of this name, and returns whether it has none.
fn write_named_faults<'a, L: Source>(
    alloc: Global,
    machine: &Machine,
    name: &'a str,
    list: &mut L,
    lines: &mut Vec<u8>,
) -> Result<bool, Fault<'a>>
    ensures ok { IfOk result (λ none. (text : List ℕ) × L.gives list.old (Ok text) ×
        (lines.new.items ≡ lines.old.items ++ faults_text (file_faults machine.now text)) ×
        (none ≡ (length (file_faults machine.now text) == 0))) }
    ensures err { IfErr result (λ fault. (fault ≡ OutOfMemory) ⊎
        FailsWith name.now (L.gives list.old) fault) }
{
    let text = read_list(alloc, name, list)?;
    Ok(write_file_faults(alloc, machine, text.as_slice(), lines)?)
}

// Appends the faults of a list for this machine, and returns whether it has none.
fn write_asked_faults<'a, L: Source>(
    alloc: Global,
    machine: &Machine,
    schedule: &'a str,
    list: &mut L,
    lines: &mut Vec<u8>,
) -> Result<bool, Fault<'a>>
    ensures ok { IfOk result (λ none. (text : List ℕ) ×
        IsRead (list_name schedule.now) (L.gives list.old) text ×
        (lines.new.items ≡ lines.old.items ++
        faults_text (named_faults machine.now (list_name schedule.now) schedule.now text)) ×
        (none ≡
        (length (named_faults machine.now (list_name schedule.now) schedule.now text) == 0))) }
    ensures err { IfErr result (λ fault. (fault ≡ OutOfMemory) ⊎
        IsSomeAnd (list_name schedule.now) (λ name. FailsWith name (L.gives list.old) fault)) }
    ensures unread { list_name schedule.now ≡ None → list.new ≡ list.old }
{
    match list_name(schedule) {
        None => Ok(write_list_faults(alloc, machine, schedule, lines)?),
        Some(name) => write_named_faults(alloc, machine, name, list, lines),
    }
}

// The exit status, where a list has no fault or has one.
fn list_status(none: bool) -> u8
    ensures { result ≡ (if none then 0 else 1) }
{
    if none { 0 } else { 1 }
}

/// What the lint of a text without a fault comes to, and of a list for its machine, where there is
/// one. `list` gives it where it is in a file.
pub(crate) fn list_lint_done<'a, L: Source>(
    alloc: Global,
    text: &[u8],
    machine: &Machine,
    lint: &LintJob<'a>,
    list: &mut L,
) -> Result<Done<'a>, Fault<'a>>
    requires { faults_of text.now ≡ [] }
    ensures ok { IfOk result (λ done. (read : List ℕ) ×
        IsRead (list_name_in lint.now.schedule) (L.gives list.old) read ×
        IsListLinted (shown_name lint.now) text.now machine.now lint.now.schedule read
        (output_of done)) }
    ensures err { IfErr result (λ fault. (fault ≡ OutOfMemory) ⊎
        IsSomeAnd (list_name_in lint.now.schedule)
        (λ name. FailsWith name (L.gives list.old) fault)) }
    ensures unread { list_name_in lint.now.schedule ≡ None → list.new ≡ list.old }
{
    let mut done = lint_done(alloc, lint.shown_name(), text)?;
    let Some(schedule) = lint.schedule else {
        return Ok(done);
    };
    let none = write_asked_faults(alloc, machine, schedule, list, &mut done.lines)?;
    done.status = list_status(none);
    Ok(done)
}
