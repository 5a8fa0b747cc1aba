//! Pieces of codes.
ghost use Rattle.std.specs.Prelude.{◌≡◌, ◌<◌, ◌≤◌, ◌++◌, ◌^◌, List, ℕ, IfNone, IfOk, IfSome, OnOk};
ghost use Rattle.std.specs.Prelude.{length};
ghost use Rattle.l4_explore.specs.Inner.Codes.{code_at};
ghost use Rattle.l4_explore.specs.Inner.Rows.{AreLonger, AreMore, HasPart, IsKept, IsRowOf};

use crate::numbers::{first_number, push_number};
use crate::table::CodeTable;
use std::alloc::{AllocError, Global};
use std::marker::Model;

// Codes of states write a run of zeros as a byte 0 and their number. From so many on it ends a part.
const LONG_RUN: u8 = 8;

// Most rows are not longer, so memory is asked for once.
const USUAL_LEN: usize = 16;

/// Pieces of codes, each known by its number. Pieces repeat parts of each other, so each part is kept
/// once, and of a piece the numbers of its parts.
#[derive(Drop)]
pub(crate) struct Pieces {
    parts: CodeTable,
    // Of each piece the numbers of its parts, in bytes.
    rows: CodeTable,
}

impl Model for Pieces {
    ghost use Rattle.std.specs.Prelude.{ℕ, List, length, map};
    ghost use Rattle.l4_explore.specs.Inner.Rows.{whole, AreRows};

    ghost Value = { List (List ℕ) };

    ghost view = { λ p. map (whole p.parts) p.rows };

    ghost invariant = { λ p. AreRows (length p.parts) p.rows };
}

impl Pieces {
    /// The empty piece alone.
    ///
    /// `AllocError`: memory was refused.
    pub(crate) fn new(alloc: Global) -> Result<Pieces, AllocError> {
        Ok(Pieces {
            parts: CodeTable::new(alloc, &[])?,
            rows: CodeTable::new(alloc, &[])?,
        })
    }

    /// The number of a piece. It is added if it is new. If memory is refused, some of its parts may
    /// have been added, which changes no piece.
    ///
    /// `AllocError`: memory was refused, or all parts, or the numbers of the parts of all pieces,
    /// would have 2^32 bytes or more.
    pub(crate) fn number_of(&mut self, alloc: Global, piece: &[u8]) -> Result<u32, AllocError>
        ensures fits { IfOk result (λ number. number < 2 ^ 32) }
        ensures ok { IfOk result (λ number. HasPart self.new number piece.now) }
        ensures more { AreLonger self.old self.new }
    {
        let row = row_of(alloc, &mut self.parts, piece)?;
        number_of(&mut self.rows, &row)
    }

    /// Appends the piece of a number to a code.
    ///
    /// `AllocError`: memory was refused.
    pub(crate) fn append(&self, number: usize, code: &mut Vec<u8>) -> Result<(), AllocError>
        requires { number < length self.now }
        ensures { OnOk result (code.new.items ≡ code.old.items ++ code_at self.now number) }
    {
        let mut row = self.rows.code(number);
        while let Some((part, others)) = first_number(row) {
            code.extend_from_slice(self.parts.code(part))?;
            row = others;
        }
        Ok(())
    }

    /// What is behind the piece of a number at the beginning of a code. None if the code does not
    /// begin with it.
    pub(crate) fn behind<'a>(&self, number: usize, code: &'a [u8]) -> Option<&'a [u8]>
        requires { number < length self.now }
        ensures some { IfSome result (λ rest. code.now ≡ code_at self.now number ++ rest.now) }
        ensures none { IfNone result
            ((rest : List ℕ) → code_at self.now number ++ rest ≡ code.now → ⊥) }
    {
        let mut rest = code;
        let mut row = self.rows.code(number);
        while let Some((part, others)) = first_number(row) {
            match behind(rest, self.parts.code(part)) {
                Some(left) => rest = left,
                None => return None,
            }
            row = others;
        }
        Some(rest)
    }
}

// The numbers of the parts of a piece, in bytes. Parts that are new are added, and stay if memory is
// refused then.
fn row_of(alloc: Global, parts: &mut CodeTable, piece: &[u8]) -> Result<Vec<u8>, AllocError>
    ensures ok { IfOk result (λ row. IsRowOf parts.new row.items piece.now) }
    ensures more { AreMore parts.old parts.new }
{
    let mut row = Vec::with_capacity(alloc, USUAL_LEN)?;
    let mut rest = piece;
    while !rest.is_empty() {
        let (part, others) = rest.split_at(part_len(rest));
        let number = number_of(parts, part)?;
        push_number(&mut row, number)?;
        rest = others;
    }
    Ok(row)
}

// The number of a code. It is added if it is new.
fn number_of(codes: &mut CodeTable, code: &[u8]) -> Result<u32, AllocError>
    ensures fits { IfOk result (λ number. number < 2 ^ 32) }
    ensures ok { IfOk result (λ number. HasPart codes.new number code.now) }
    ensures kept { IsKept codes.old codes.new code.now }
{
    let known = codes.find(code);
    let number = known.unwrap_or(codes.len());
    if number > u32::MAX as usize {
        return Err(AllocError);
    }
    if known.is_none() {
        codes.push(code)?;
    }
    Ok(number as u32)
}

/// How long the first part of a code is. It ends behind a byte 0 and a byte of at least `LONG_RUN`,
/// or with the code. Any other rule would do, and only another number of parts would be kept.
pub(crate) fn part_len(code: &[u8]) -> usize
    requires { 0 < length code.now }
    ensures some { 0 < result }
    ensures inside { result ≤ length code.now }
{
    let mut len = 1;
    while len < code.len() {
        len += 1;
        if code[len - 2] == 0 && code[len - 1] >= LONG_RUN {
            return len;
        }
    }
    len
}

// What is behind a part at the beginning of a code. None if the code does not begin with it.
fn behind<'a>(code: &'a [u8], part: &[u8]) -> Option<&'a [u8]>
    ensures some { IfSome result (λ rest. code.now ≡ part.now ++ rest.now) }
    ensures none { IfNone result ((rest : List ℕ) → part.now ++ rest ≡ code.now → ⊥) }
{
    if code.len() < part.len() {
        return None;
    }
    let (first, rest) = code.split_at(part.len());
    if first == part { Some(rest) } else { None }
}
