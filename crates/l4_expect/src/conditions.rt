//! What no world on the way may tell.
ghost use Rattle.std.specs.Prelude.{◌≡◌, ◌⊎◌, ◌++◌, ◌∷◌, [], Err, IfErr, IfOk, None, Ok, OnOk, Some};
ghost use Rattle.std.specs.Prelude.{map, true};
ghost use Rattle.std.specs.List.{list_all};
ghost use Rattle.std.specs.Option.{option_copied};
ghost use Rattle.l4_lines.specs.Lines.{has_line};
ghost use Rattle.l4_expect.specs.Conditions.{condition_of, line_in, may_be_judged, parts_left};
ghost use Rattle.l4_expect.specs.Conditions.{without_space_before, without_space_behind};
ghost use Rattle.l4_expect.specs.Judging.{wrong_told};
ghost use Rattle.l4_expect.specs.declared.expectations.ExpectFault.TheVariants.{NoMemory as OutOfMemory};

use crate::expectations::ExpectFault;
use crate::judging::{Wrong, wrong_told};
use crate::unmet::has_line;
use l4_types::errors::NoMemory;
use l4_words::lines::split_once;
use std::alloc::Global;
use std::marker::Model;

const NEVER: &[u8] = b"never ";

const SPACE: &[u8] = b" ";

/// What no world on the way may tell: lines of a report but that of an ending, all at once.
#[derive(Debug, Drop)]
pub struct Condition<'t> {
    lines: Vec<&'t [u8]>,
}

impl<'t> Model for Condition<'t> {
    ghost use Rattle.std.specs.Prelude.{ℕ, List, map, true, ◌≡◌};
    ghost use Rattle.l4_expect.specs.Conditions.{may_be_judged};

    ghost Value = { List (List ℕ) };

    ghost view = { λ c. map (λ line. line.now) c.lines.items };

    ghost invariant = { λ c. may_be_judged (map (λ line. line.now) c.lines.items) ≡ true };
}

impl<'t> Condition<'t> {
    /// The condition of a text: `never`, and behind it lines with ` & ` between them.
    ///
    /// `Line`: this line, counted from 1, is the first that no world on the way tells, or that worlds
    /// as good as each other may tell otherwise, and why. `NoMemory`: memory was refused, which may
    /// come in the place of the other.
    pub fn parse(alloc: Global, text: &'t [u8]) -> Result<Condition<'t>, ExpectFault>
        ensures ok { IfOk result (λ condition. condition_of text.now ≡ Ok condition) }
        ensures err { IfErr result (λ fault. (fault ≡ OutOfMemory) ⊎
            (condition_of text.now ≡ Err fault)) }
    {
        if !text.starts_with(NEVER) {
            return Err(ExpectFault::Line(1, Wrong::BadLine));
        }
        let mut condition = Condition {
            lines: Vec::new(alloc),
        };
        let mut rest = Some(&text[NEVER.len()..]);
        'parts: while let Some(parts) = rest {
            let (part, others) = first_part(parts);
            let line = line_in(part);
            match wrong_told(line) {
                None => condition.push(line)?,
                Some(wrong) => return Err(ExpectFault::Line(condition.lines.len() + 1, wrong)),
            }
            rest = others;
        }
        Ok(condition)
    }

    // Appends a line without a fault.
    fn push(&mut self, line: &'t [u8]) -> Result<(), NoMemory>
        requires { wrong_told line.now ≡ None }
        ensures { OnOk result (self.new ≡ self.old ++ line.now ∷ []) }
    {
        self.lines.push(line)?;
        Ok(())
    }

    /// Whether a text has all of its lines.
    pub fn is_told(&self, text: &[u8]) -> bool
        ensures { result ≡ list_all (λ line. has_line line text.now) self.now }
    {
        are_told(self.lines.as_slice(), text)
    }

    /// Worlds as good as each other tell its lines alike.
    pub fn facts(&self)
        ensures { may_be_judged self.now ≡ true }
    {
        let _ = &self.lines;
    }

    /// Its lines.
    pub fn lines(&self) -> &[&'t [u8]]
        ensures { map (λ line. line.now) result.now ≡ self.now }
    {
        self.lines.as_slice()
    }
}

// Whether a text has all of these lines.
fn are_told(lines: &[&[u8]], text: &[u8]) -> bool
    ensures { result ≡ list_all (λ line. has_line line text.now) (map (λ line. line.now) lines.now) }
{
    for line in lines {
        if !has_line(line, text) {
            return false;
        }
    }
    true
}

// The first part of what is left of a text, and what is left behind the `&` that follows it.
fn first_part(text: &[u8]) -> (&[u8], Option<&[u8]>)
    ensures { parts_left (Some text.now) ≡ result.0.now ∷ parts_left (option_copied result.1) }
{
    match split_once(b'&', text) {
        Some((part, rest)) => (part, Some(rest)),
        None => (text, None),
    }
}

// The line of a part, without the spaces that part it from an `&`.
fn line_in(part: &[u8]) -> &[u8]
    ensures { result.now ≡ line_in part.now }
{
    without_space_behind(without_space_before(part))
}

fn without_space_before(part: &[u8]) -> &[u8]
    ensures { result.now ≡ without_space_before part.now }
{
    if part.starts_with(SPACE) {
        &part[1..]
    } else {
        part
    }
}

fn without_space_behind(part: &[u8]) -> &[u8]
    ensures { result.now ≡ without_space_behind part.now }
{
    if part.ends_with(SPACE) {
        &part[..part.len() - 1]
    } else {
        part
    }
}
