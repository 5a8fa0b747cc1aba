//! The two forms of a case.

use std::iter::Skip;
use std::str::Split;

/// A file with commands and their outcomes.
#[derive(Clone, Copy)]
pub struct Case<'a> {
    /// Its name.
    pub name: &'a str,
    /// What begins each of its lines.
    pub mark: &'static str,
    /// What begins a command, with the line end before it.
    command: &'static str,
    /// The lines of the case, and whatever stands between them.
    lines: &'a str,
    /// The machine text, which the commands find by whatever name.
    pub text: &'a [u8],
    /// Whether the machine text is no file of its own.
    pub is_apart: bool,
}

impl<'a> Case<'a> {
    /// A machine text with the case in its comments.
    pub fn in_comments(name: &'a str, text: &'a str) -> Case<'a> {
        Case {
            name,
            mark: "; ",
            command: "\n; $ ",
            lines: text,
            text: text.as_bytes(),
            is_apart: false,
        }
    }

    /// A case, and after its line `---` a machine text.
    pub fn apart(name: &'a str, text: &'a str) -> Option<Case<'a>> {
        let (lines, text) = text.split_once("\n---\n")?;
        Some(Case {
            name,
            mark: "",
            command: "\n$ ",
            lines,
            text: text.as_bytes(),
            is_apart: true,
        })
    }

    /// Its commands, each with the lines that follow it.
    pub fn blocks(&self) -> Skip<Split<'a, &'static str>> {
        self.lines.split(self.command).skip(1)
    }
}
