//! Doing a command as the program does it.

use crate::audits::audit;
use crate::case::Case;
use crate::outcome::Outcome;
use crate::said::Said;
use l4_colours::outputs::{Output, PaintedOutput, is_painted};
use l4_explore::progress::Unheard;
use l4_jobs::job::Job;
use l4_jobs::perform::{perform, perform_on_files};
use l4_jobs::refusal::refuse;
use l4_jobs::streams::{STANDARD_INPUT, Sink, WithInput};
use l4_jobs::words::asked_of;
use std::alloc::{AllocError, Global};
use std::io;
use std::rt::Files;
use std::thread::Threads;

// The words of a line. Between quotes a word may have spaces, or be empty.
fn words_of(alloc: Global, line: &str) -> Result<Vec<&str>, AllocError> {
    let mut words = Vec::new(alloc);
    let mut is_quoted = false;
    for part in line.split('\'') {
        if is_quoted {
            words.push(part)?;
        } else {
            push_words(&mut words, part)?;
        }
        is_quoted = !is_quoted;
    }
    Ok(words)
}

fn push_words<'a>(words: &mut Vec<&'a str>, part: &'a str) -> Result<(), AllocError> {
    for word in part.split_whitespace() {
        words.push(word)?;
    }
    Ok(())
}

// Does a job onto an output, and returns the exit status.
fn do_job_onto<R: Files + AllocGlobal + Threads + Sync, W: Sink, E: Sink>(
    rt: &R,
    case: &Case<'_>,
    job: &Job<'_>,
    said: &Said,
    output: &mut W,
    faults: &mut E,
) -> u8 {
    let trace = said.trace.as_slice();
    if !case.is_apart {
        let folder = WithInput {
            folder: rt,
            input: trace,
            input_name: STANDARD_INPUT,
        };
        return perform_on_files(
            rt,
            rt.alloc(),
            &folder,
            said.on_terminal,
            job,
            output,
            faults,
            &mut Unheard,
        );
    }
    let mut text = case.text;
    let mut trace = trace;
    perform(rt, rt.alloc(), job, &mut text, &mut trace, output, faults)
}

// Does a job, and returns the exit status.
fn do_job<R: Files + AllocGlobal + Threads + Sync>(
    rt: &R,
    case: &Case<'_>,
    job: &Job<'_>,
    has_colours: bool,
    said: &Said,
    done: &mut Outcome,
) -> u8 {
    let alloc = rt.alloc();
    let mut output = PaintedOutput::new(alloc, Vec::new(alloc), has_colours);
    let status = do_job_onto(rt, case, job, said, &mut output, &mut done.faults);
    done.output = output.into_output();
    status
}

/// Does the command of a line, with the input and the kind of output that its case says. A trace
/// that it prints is audited, unless it is painted. Lines are painted as where `NO_COLOR` is set: by
/// the word `always` alone.
pub fn do_command<R: Files + AllocGlobal + Threads + Sync>(
    rt: &R,
    case: &Case<'_>,
    line: &str,
    said: &Said,
) -> io::Result<Outcome> {
    let words = words_of(rt.alloc(), line)?;
    let mut done = Outcome::new(rt.alloc());
    match asked_of(rt.alloc(), words.as_slice()) {
        Ok(asked) => {
            let output = Output {
                is_terminal: said.on_terminal,
                is_uncoloured: true,
            };
            let has_colours = is_painted(&asked, output);
            let job = asked.job.on_output(said.on_terminal, 0);
            done.status = do_job(rt, case, &job, has_colours, said, &mut done);
            if !has_colours {
                audit(rt, case, &job, &mut done)?;
            }
        }
        Err(fault) => {
            done.status = refuse(rt.alloc(), &fault, &mut done.output, &mut done.faults);
        }
    }
    Ok(done)
}
