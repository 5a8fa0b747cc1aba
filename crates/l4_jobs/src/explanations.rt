//! What is told of a fault on a terminal: behind its line, what explains it.
ghost use Rattle.std.specs.Prelude.{◌≡◌, ◌⊎◌, IfOk, true};
ghost use Rattle.l4_jobs.specs.Explanations.{IsExplained, explanation, reason_text, told_line};
ghost use Rattle.l4_jobs.specs.Explanations.{wrong_text};
ghost use Rattle.l4_jobs.specs.declared.fault.Fault.TheVariants.{NoMemory as OutOfMemory};

use crate::fault::{Fault, Reason, line_of, report};
use crate::streams::Sink;
use l4_expect::judging::Wrong;
use l4_lint::excerpts::fault_shown;
use l4_types::errors::NoMemory;
use std::alloc::Global;

// Why a file can't be read, as far as the system tells it.
fn reason_text(alloc: Global, name: &str, reason: Reason) -> Result<Vec<u8>, NoMemory>
    ensures { IfOk result (λ text. text.items ≡ reason_text name.now reason) }
{
    let mut text = Vec::new(alloc);
    let words = match reason {
        Reason::NoSuchFile => ": no such file\n",
        Reason::IsDirectory => ": is a directory\n",
        Reason::NotAllowed => ": not allowed\n",
        Reason::Untold => return Ok(text),
    };
    text.extend_from_slice(name.as_bytes())?;
    text.extend_from_slice(words.as_bytes())?;
    Ok(text)
}

// Why a line can't be asked for, where its kind alone does not say it.
fn wrong_text(wrong: Wrong) -> &'static str
    ensures { result.now ≡ wrong_text wrong }
{
    match wrong {
        Wrong::BadWord => {
            "no line that may be asked for has such a word there, or so few or so many words\n"
        }
        Wrong::Deleted => {
            "of a deleted thread no more may be asked for than its state, as thread 1.1 deleted ..\n"
        }
        Wrong::Number => {
            "no number of a send may be asked for, but any send of a thread, as waiting 1.1#* 2.1\n"
        }
        Wrong::BadLine | Wrong::Unknown => "",
    }
}

// What explains a fault of a job on the text in this file.
fn explanation(
    alloc: Global,
    file: &str,
    text: &[u8],
    fault: &Fault<'_>,
) -> Result<Vec<u8>, NoMemory>
    ensures { IfOk result (λ told. told.items ≡ explanation file.now text.now fault.now) }
{
    match fault {
        Fault::Text { .. } => fault_shown(alloc, file, text),
        Fault::Read(name, reason) => reason_text(alloc, name, *reason),
        Fault::Expectation(_, wrong) | Fault::Condition(_, wrong) => {
            Ok(Vec::from_slice(alloc, wrong_text(*wrong).as_bytes())?)
        }
        _ => Ok(Vec::new(alloc)),
    }
}

// The line of a fault, and what explains it.
fn explained_line(
    alloc: Global,
    file: &str,
    text: &[u8],
    fault: &Fault<'_>,
) -> Result<Vec<u8>, NoMemory>
    ensures { IfOk result (λ line. line.items ≡ told_line true file.now text.now fault.now) }
{
    let mut line = line_of(alloc, fault)?;
    let told = explanation(alloc, file, text, fault)?;
    line.extend_from_slice(told.as_slice())?;
    Ok(line)
}

/// Writes the line of a fault of a job on the text in this file, and what explains it where that is
/// asked for, and returns the exit status 1. It is one write. Where memory for the explanation is
/// refused, that is the fault.
pub(crate) fn tell<E: Sink>(
    alloc: Global,
    explains: bool,
    file: &str,
    text: &[u8],
    faults: &mut E,
    fault: &Fault<'_>,
) -> u8
    ensures told { IsExplained explains file.now text.now (E.takes faults.old faults.new) fault.now
        ⊎ IsExplained explains file.now text.now (E.takes faults.old faults.new) OutOfMemory }
    ensures status { result ≡ 1 }
{
    if !explains {
        return report(alloc, faults, fault);
    }
    match explained_line(alloc, file, text, fault) {
        Ok(line) => {
            // Where this can't be written, only the status says so.
            let _ = faults.put(line.as_slice());
            1
        }
        Err(_) => report(alloc, faults, &Fault::NoMemory),
    }
}
