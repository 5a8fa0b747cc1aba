//! The outcome that a case says a command has.

use crate::outcome::Outcome;
use std::alloc::Global;
use std::rt::Files;
use std::{fs, io};

/// What the lines after a command say.
#[derive(Drop)]
pub struct Said {
    /// The trace that it reads as its standard input.
    pub trace: Vec<u8>,
    /// Whether its output is a terminal.
    pub on_terminal: bool,
    /// Its outcome.
    pub outcome: Outcome,
}

// What a line says.
#[derive(Clone, Copy)]
enum Line<'a> {
    // An empty line or a remark.
    Nothing,
    // The output is this file.
    File(&'a str),
    // The output is a terminal.
    Terminal,
    // A line of the trace.
    Trace(&'a str),
    // A line of the stream of faults.
    Fault(&'a str),
    Status(u8),
    // A line of the output.
    Output(&'a str),
}

// What follows a mark and a space.
fn behind<'a>(line: &'a str, mark: &str) -> Option<&'a str> {
    let left = line.strip_prefix(mark)?;
    if left.is_empty() {
        return Some(left);
    }
    left.strip_prefix(' ')
}

// The status of a line `[N]`.
fn status_of(line: &str) -> Option<u8> {
    line.strip_prefix('[')?.strip_suffix(']')?.parse().ok()
}

fn line_of(line: &str) -> Line<'_> {
    if line.is_empty() || behind(line, "#").is_some() {
        return Line::Nothing;
    }
    if line == "> a terminal" {
        return Line::Terminal;
    }
    if let Some(name) = behind(line, "@") {
        return Line::File(name);
    }
    if let Some(text) = behind(line, "<") {
        return Line::Trace(text);
    }
    if let Some(text) = behind(line, "!") {
        return Line::Fault(text);
    }
    match status_of(line) {
        Some(status) => Line::Status(status),
        None => Line::Output(line),
    }
}

fn push_line(bytes: &mut Vec<u8>, line: &str) -> io::Result<()> {
    bytes.extend_from_slice(line.as_bytes())?;
    bytes.push(b'\n')?;
    Ok(())
}

fn push_file<R: Files + AllocGlobal>(rt: &R, bytes: &mut Vec<u8>, name: &str) -> io::Result<()> {
    let file = fs::read(rt, name)?;
    bytes.extend_from_slice(file.as_slice())?;
    Ok(())
}

impl Said {
    fn new(alloc: Global) -> Said {
        Said {
            trace: Vec::new(alloc),
            on_terminal: false,
            outcome: Outcome::new(alloc),
        }
    }

    // Takes what a line says.
    fn take<R: Files + AllocGlobal>(&mut self, rt: &R, line: &str) -> io::Result<()> {
        match line_of(line) {
            Line::Nothing => Ok(()),
            Line::Terminal => {
                self.on_terminal = true;
                Ok(())
            }
            Line::File(name) => push_file(rt, &mut self.outcome.output, name),
            Line::Trace(text) => push_line(&mut self.trace, text),
            Line::Fault(text) => push_line(&mut self.outcome.faults, text),
            Line::Output(text) => push_line(&mut self.outcome.output, text),
            Line::Status(status) => {
                self.outcome.status = status;
                Ok(())
            }
        }
    }
}

/// What the lines say that begin with the mark.
pub fn said_of<R: Files + AllocGlobal>(rt: &R, lines: &str, mark: &str) -> io::Result<Said> {
    let mut said = Said::new(rt.alloc());
    for line in lines.lines() {
        if let Some(text) = line.strip_prefix(mark) {
            said.take(rt, text)?;
        }
    }
    Ok(said)
}
