//! The program `l4run`: hands the words of its command line and the system's streams to `l4_jobs`,
//! and returns the exit status.
//!
//! It runs machine texts and prints what happened, and audits what is said to have happened. What
//! is printed for which words is proved in `l4_jobs`. This file has what needs a system: it refuses
//! arguments that are not UTF-8 with status 2, reports refused memory, paints lines for a terminal,
//! shows there how far a search has come, and asks there for the lines of a session.
//!
//! No contract says what the system's files and streams do. `.ci/command-lines` tries them with the
//! built program: a full device, a closed pipe, a folder for a file.
//!
//! ```text
//! l4run run examples/first.l4
//! l4run replay examples/first.l4 --schedule 0,0,0 --report
//! l4run audit examples/first.l4 examples/first.trace
//! l4run chart examples/first.l4 examples/first.trace
//! ```
#![tactic(auto)]

mod progress;
mod prompt;

use crate::progress::{BesideLine, LinePlace, ProgressLine};
use crate::prompt::{Asking, Prompt};
use l4_colours::outputs::{Output, PaintedOutput, is_painted};
use l4_explore::progress::Progress;
use l4_jobs::fault::{Fault, report};
use l4_jobs::job::{Job, StepJob};
use l4_jobs::perform::{perform_on_files, perform_steps};
use l4_jobs::refusal::refuse;
use l4_jobs::streams::{STANDARD_INPUT, Sink, WithInput};
use l4_jobs::words::asked_of;
use std::alloc::{AllocError, Global};
use std::cell::Cell;
use std::env::VarError;
use std::io::{BufReader, IsTerminal, Read, Write};
use std::process::ExitCode;
use std::rt::{Env, Files};
use std::thread::Threads;
use std::{env, io};

// Whether a stream shows lines: it is a terminal, and not one that `TERM` calls dumb.
fn shows_lines<R: Env + AllocGlobal>(rt: &R, is_terminal: bool) -> bool {
    is_terminal && !matches!(env::var(rt, "TERM"), Ok(term) if term.as_str() == "dumb")
}

// How many columns the output has, as `COLUMNS` says, or 0.
fn columns<R: Env + AllocGlobal>(rt: &R) -> u64 {
    match env::var(rt, "COLUMNS") {
        Ok(columns) => columns.as_str().parse().unwrap_or(0),
        Err(_) => 0,
    }
}

// Whether a variable of the environment is set to anything but an empty text.
fn is_set<R: Env + AllocGlobal>(rt: &R, name: &str) -> bool {
    match env::var(rt, name) {
        Ok(value) => !value.as_str().is_empty(),
        Err(error) => !matches!(error, VarError::NotPresent),
    }
}

fn output<R: Env + AllocGlobal>(rt: &R, is_terminal: bool) -> Output {
    Output {
        is_terminal: shows_lines(rt, is_terminal),
        is_uncoloured: is_set(rt, "NO_COLOR"),
    }
}

// Holds a session over the lines of an input, as they come.
fn perform_lines<R: Files + AllocGlobal, I: Read + Drop, W: Sink, E: Sink>(
    rt: &R,
    explains: bool,
    step: &StepJob<'_>,
    input: I,
    out: &mut W,
    faults: &mut E,
) -> u8 {
    match BufReader::new(rt.alloc(), input) {
        Ok(mut lines) => perform_steps(rt.alloc(), rt, explains, step, &mut lines, out, faults),
        Err(_) => report(rt.alloc(), faults, &Fault::NoMemory),
    }
}

// Does what the words ask for.
fn on_words<
    R: Files + Env + AllocGlobal + Threads + Sync,
    I: Read + Copy + Drop,
    W: Write,
    T: Sink + Drop,
    E: Sink,
    P: Progress,
>(
    rt: &R,
    words: &[&str],
    is_terminal: bool,
    explains: bool,
    input: I,
    prompt: Prompt<T>,
    out: &mut W,
    line: LinePlace<'_, T>,
    faults: &mut E,
    progress: &mut P,
) -> u8 {
    match asked_of(rt.alloc(), words) {
        Ok(asked) => {
            let output = output(rt, is_terminal);
            let job = asked.job.on_output(output.is_terminal, columns(rt));
            let alloc = rt.alloc();
            let mut out = BesideLine {
                out: PaintedOutput::new(alloc, out, is_painted(&asked, output)),
                line,
            };
            if let Job::Step(step) = job {
                let lines = Asking { input, prompt };
                return perform_lines(rt, explains, &step, lines, &mut out, faults);
            }
            let folder = WithInput {
                folder: rt,
                input,
                input_name: STANDARD_INPUT,
            };
            perform_on_files(
                rt, alloc, &folder, explains, &job, &mut out, faults, progress,
            )
        }
        Err(fault) => refuse(rt.alloc(), &fault, out, faults),
    }
}

fn texts<'a>(alloc: Global, words: &'a [String]) -> Result<Vec<&'a str>, AllocError> {
    words.iter().map(|word| word.as_str()).collect(alloc)
}

fn run_program<
    R: Files + Env + AllocGlobal + Threads + Sync,
    I: Read + Copy + Drop,
    W: Write,
    T: Sink + Drop,
    E: Sink,
    P: Progress,
>(
    rt: &R,
    is_terminal: bool,
    explains: bool,
    input: I,
    prompt: Prompt<T>,
    out: &mut W,
    line: LinePlace<'_, T>,
    faults: &mut E,
    progress: &mut P,
) -> u8 {
    let args = match env::args(rt) {
        Ok(args) => args,
        Err(error) if matches!(error.kind(), io::ErrorKind::OutOfMemory) => {
            return report(rt.alloc(), faults, &Fault::NoMemory);
        }
        Err(_) => {
            // Where this can't be written, only the status says so.
            let _ = faults.put(b"l4run: an argument is not UTF-8\n");
            return 2;
        }
    };
    let Ok(owned) = args.collect::<Vec<String>>(rt.alloc()) else {
        return report(rt.alloc(), faults, &Fault::NoMemory);
    };
    match texts(rt.alloc(), owned.as_slice()) {
        Ok(words) => on_words(
            rt,
            words.as_slice(),
            is_terminal,
            explains,
            input,
            prompt,
            out,
            line,
            faults,
            progress,
        ),
        Err(_) => report(rt.alloc(), faults, &Fault::NoMemory),
    }
}

fn main(rt: HostRuntime) -> ExitCode {
    let is_terminal = rt.stdout().is_terminal();
    let is_told = rt.stderr().is_terminal();
    let is_shown = shows_lines(&rt, is_told);
    let is_there = Cell::new(false);
    let mut terminal = rt.stderr();
    let mut progress = ProgressLine::new(&rt, &mut terminal, is_shown, &is_there);
    let line = LinePlace {
        terminal: rt.stderr(),
        is_there: &is_there,
    };
    let prompt = Prompt {
        terminal: rt.stderr(),
        is_shown: is_told && rt.stdin().is_terminal(),
    };
    ExitCode::from(run_program(
        &rt,
        is_terminal,
        is_shown,
        rt.stdin(),
        prompt,
        &mut rt.stdout(),
        line,
        &mut rt.stderr(),
        &mut progress,
    ))
}
