//! A text of expectations.
ghost use Rattle.std.specs.Prelude.{◌≡◌, ◌⊎◌, ◌++◌, ◌∷◌, [], IfErr, IfOk, Ok, Err, OnErr, OnOk};
ghost use Rattle.std.specs.Prelude.{map};
ghost use Rattle.l4_expect.specs.Expected.{after_asked, after_line, asked_in, expectations_of};
ghost use Rattle.l4_expect.specs.Expected.{is_never};
ghost use Rattle.l4_expect.specs.Unmet.{are_met, unmet_text};
ghost use Rattle.l4_expect.specs.Inner.Views.{expected_of};
ghost use Rattle.l4_expect.specs.declared.expectations.ExpectFault.TheVariants.{NoMemory as OutOfMemory};

use crate::judging::{Scope, Wrong, wrong_asked};
use crate::unmet::{are_met, push_unmet};
use l4_script::text::words_of;
use l4_types::errors::NoMemory;
use l4_words::lines::split_line;
use std::alloc::Global;
use std::marker::Model;

const NEVER: &[u8] = b"never ";

/// What one line of a text expects.
#[derive(Clone, Copy, Debug)]
pub struct Expectation<'t> {
    /// The line of the text, counted from 1, skipped lines too.
    pub number: usize,
    /// Whether the report must not have such a line.
    pub never: bool,
    /// The line that is asked for, without its end.
    pub asked: &'t [u8],
}

/// What a text expects of a report, in order of its lines.
#[derive(Debug, Drop)]
pub struct Expectations<'t> {
    items: Vec<Expectation<'t>>,
}

impl<'t> Model for Expectations<'t> {
    ghost use Rattle.std.specs.Prelude.{List, map};
    ghost use Rattle.l4_expect.specs.Expected.{Expected};
    ghost use Rattle.l4_expect.specs.Inner.Views.{expected_of};

    ghost Value = { List Expected };

    ghost view = { λ e. map expected_of e.items.items };
}

/// Why a text has no expectations.
#[derive(Clone, Copy, Debug, PartialEq, Eq)]
pub enum ExpectFault {
    /// Memory was refused.
    NoMemory,
    /// The first faulty line, counted from 1, skipped lines too, and what is wrong there.
    Line(usize, Wrong),
}

impl From<NoMemory> for ExpectFault {
    ghost from_gives = { λ _ fault. fault ≡ OutOfMemory };

    fn from(_: NoMemory) -> ExpectFault {
        ExpectFault::NoMemory
    }
}

// Whether the report must not have what a line asks for.
fn is_never(line: &[u8]) -> bool
    ensures { result ≡ is_never line.now }
{
    line.starts_with(NEVER)
}

// The line of a report that a line asks for.
fn asked_in(line: &[u8]) -> &[u8]
    ensures { result.now ≡ asked_in line.now }
{
    if line.starts_with(NEVER) {
        &line[NEVER.len()..]
    } else {
        line
    }
}

fn push<'t>(items: &mut Vec<Expectation<'t>>, item: Expectation<'t>) -> Result<(), NoMemory>
    ensures { OnOk result (map expected_of items.new.items ≡
        map expected_of items.old.items ++ expected_of item.entry ∷ []) }
{
    items.push(item)?;
    Ok(())
}

impl<'t> Expectations<'t> {
    /// What a text expects of the reports of this scope: one expectation for each line that is
    /// neither empty nor a comment, in order.
    ///
    /// `Line`: this line, counted from 1, is the first that no report of the scope may be asked
    /// for, and why. `NoMemory`: memory was refused, which may come in the place of the other.
    pub fn parse(
        alloc: Global,
        scope: Scope,
        text: &'t [u8],
    ) -> Result<Expectations<'t>, ExpectFault>
        ensures ok { IfOk result (λ expected. expectations_of scope text.now ≡ Ok expected) }
        ensures err { IfErr result (λ fault. (fault ≡ OutOfMemory) ⊎
            (expectations_of scope text.now ≡ Err fault)) }
    {
        let mut expected = Expectations {
            items: Vec::new(alloc),
        };
        let mut left = text;
        let mut before = 0;
        'lines: while let Some((line, rest)) = split_line(left) {
            expected.read_line(scope, before + 1, line)?;
            left = rest;
            before += 1;
        }
        if !left.is_empty() {
            return Err(ExpectFault::Line(before + 1, Wrong::BadLine));
        }
        Ok(expected)
    }

    // Appends the expectation of the line of this number, if the line has one.
    fn read_line(&mut self, scope: Scope, number: usize, line: &'t [u8]) -> Result<(), ExpectFault>
        ensures ok { OnOk result (after_line scope number line.now self.old ≡ Ok self.new) }
        ensures err { IfErr result (λ fault. (fault ≡ OutOfMemory) ⊎
            (after_line scope number line.now self.old ≡ Err fault)) }
    {
        match words_of(line) {
            Ok(Some(_)) => self.push_asked(scope, number, line),
            Ok(None) => Ok(()),
            Err(_) => Err(ExpectFault::Line(number, Wrong::BadLine)),
        }
    }

    // Appends the expectation of this line, unless it is faulty.
    fn push_asked(&mut self, scope: Scope, number: usize, line: &'t [u8]) -> Result<(), ExpectFault>
        ensures ok { OnOk result (after_asked scope number line.now self.old ≡ Ok self.new) }
        ensures err { IfErr result (λ fault. (fault ≡ OutOfMemory) ⊎
            (after_asked scope number line.now self.old ≡ Err fault)) }
    {
        let asked = asked_in(line);
        if let Some(wrong) = wrong_asked(scope, asked) {
            return Err(ExpectFault::Line(number, wrong));
        }
        push(
            &mut self.items,
            Expectation {
                number,
                never: is_never(line),
                asked,
            },
        )?;
        Ok(())
    }

    /// Whether a report meets all of them.
    pub fn are_met(&self, report: &[u8]) -> bool
        ensures { result ≡ are_met report.now self.now }
    {
        are_met(report, self.items.as_slice())
    }

    /// Appends a line for each that a report does not meet, in order: its line in the text, what
    /// was wanted, and what was found. Returns whether the report meets all. If memory is refused,
    /// nothing is appended.
    #[tactic(auto, using(crate::proofs::Printing::unmet_parts))]
    pub fn write_unmet(&self, report: &[u8], out: &mut Vec<u8>) -> Result<bool, NoMemory>
        ensures all { IfOk result (λ all. all ≡ are_met report.now self.now) }
        ensures ok { OnOk result
            (out.new.items ≡ out.old.items ++ unmet_text report.now self.now) }
        ensures err { OnErr result (out.new.items ≡ out.old.items) }
    {
        let mut lines = Vec::new(*out.allocator());
        push_unmet(&mut lines, report, self.items.as_slice())?;
        out.extend_from_slice(lines.as_slice())?;
        Ok(self.are_met(report))
    }
}
