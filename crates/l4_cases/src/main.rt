//! Does the commands of the cases that its words name, and prints each whose outcome differs from
//! what its case says. It also prints each fault that displays something else than its line.
//!
//! A case is a file of `data/`: a machine text with its commands and what each is to print, worked
//! out by hand from docs/MODEL.md and docs/FORMATS.md. Each goes the way of the program, by
//! `job_of` and `perform_on_files`, or by `perform` where the case holds its texts. The gate
//! compares what is printed, as two compilers build it. examples/README.md tells how a case is
//! written.
//!
//! Nothing is proved of the outcome of a case: cases show what the definitions mean, and that a
//! command prints what a reader expects.
//!
//! ```text
//! ./x try cases call_gets_its_answer.l4
//! ```
#![tactic(auto)]

mod audits;
mod case;
mod commands;
mod counts;
mod differences;
mod faults;
mod outcome;
mod repeats;
mod said;

use crate::case::Case;
use crate::commands::do_command;
use crate::counts::as_counted;
use crate::differences::print_difference;
use crate::faults::count_of_faults;
use crate::repeats::written_out;
use crate::said::said_of;
use std::process::ExitCode;
use std::rt::{Env, Files};
use std::thread::Threads;
use std::{env, fs, io};

// Does a command of a case, and prints where its outcome differs from what the case says. Returns
// whether it differs.
fn is_other<R: Files + AllocGlobal + Threads + Sync + Print>(
    rt: &R,
    case: &Case<'_>,
    block: &str,
) -> io::Result<bool> {
    let (line, lines) = block.split_once('\n').unwrap_or((block, ""));
    let said = said_of(rt, lines, case.mark)?;
    let mut done = do_command(rt, case, line, &said)?;
    let wanted = said.outcome;
    done.output = as_counted(rt.alloc(), wanted.output.as_slice(), done.output)?;
    done.faults = as_counted(rt.alloc(), wanted.faults.as_slice(), done.faults)?;
    if done == wanted {
        return Ok(false);
    }
    let name = case.name;
    println!(rt; "{name}: {line}")?;
    print_difference(rt, &wanted, &done)?;
    Ok(true)
}

// Does the commands of a case, and returns how many have another outcome than it says. One without
// a command is counted too.
fn count_other<R: Files + AllocGlobal + Threads + Sync + Print>(
    rt: &R,
    case: &Case<'_>,
) -> io::Result<usize> {
    let mut commands = 0usize;
    let mut others = 0usize;
    for block in case.blocks() {
        commands = commands.saturating_add(1);
        if is_other(rt, case, block)? {
            others = others.saturating_add(1);
        }
    }
    if commands == 0 {
        let name = case.name;
        println!(rt; "{name}: no command")?;
        return Ok(1);
    }
    Ok(others)
}

// Does the commands of the case of this name, and returns how many have another outcome than it
// says.
fn count_of_case<R: Files + AllocGlobal + Threads + Sync + Print>(
    rt: &R,
    name: &str,
) -> io::Result<usize> {
    let mut text = fs::read_to_string(rt, name)?;
    let is_apart = name.ends_with(".case");
    if is_apart {
        text = written_out(rt.alloc(), text.as_str())?;
    }
    let case = match is_apart {
        true => Case::apart(name, text.as_str()),
        false => Some(Case::in_comments(name, text.as_str())),
    };
    let Some(case) = case else {
        println!(rt; "{name}: no text")?;
        return Ok(1);
    };
    count_other(rt, &case)
}

// The same, but that what stops the case is printed and counted.
fn count_or_print<R: Files + AllocGlobal + Threads + Sync + Print>(
    rt: &R,
    name: &str,
) -> io::Result<usize> {
    match count_of_case(rt, name) {
        Ok(others) => Ok(others),
        Err(error) => {
            println!(rt; "{name}: {error}")?;
            Ok(1)
        }
    }
}

// Does the commands of all cases, and returns how many have another outcome than they say.
fn count_of_cases<R: Files + AllocGlobal + Threads + Sync + Print>(
    rt: &R,
    names: &[String],
) -> io::Result<usize> {
    let mut others = 0usize;
    for name in names {
        others = others.saturating_add(count_or_print(rt, name.as_str())?);
    }
    Ok(others)
}

fn main(rt: HostRuntime) -> io::Result<ExitCode> {
    let names: Vec<String> = env::args(&rt)?.skip(1).collect(rt.alloc())?;
    let others = count_of_cases(&rt, names.as_slice())?.saturating_add(count_of_faults(&rt)?);
    if others != 0 {
        println!(rt; "{others} commands or faults differ")?;
        return Ok(ExitCode::FAILURE);
    }
    println!(rt; "all cases as wanted")?;
    Ok(ExitCode::SUCCESS)
}
