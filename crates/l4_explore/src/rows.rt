//! Codes in pieces. The code of a state has some hundred bytes, and nearly all of its pieces are
//! pieces of other codes too.
ghost use Rattle.std.specs.Prelude.{◌≡◌, ◌<◌, ◌≤◌, ◌++◌, ◌∷◌, [], IfOk, OnErr, OnOk, length};
ghost use Rattle.std.specs.Str.{bytes_eq};
ghost use Rattle.l4_explore.specs.Inner.Codes.{code_at};
ghost use Rattle.l4_explore.specs.Inner.Rows.{AreLonger, IsRowOf};

use crate::codes::Codes;
use crate::numbers::{first_number, push_number};
use crate::pieces::{Pieces, part_len};
use std::alloc::{AllocError, Global};
use std::marker::Model;

// How many parts a piece has.
const PARTS: usize = 3;

// Most rows are not longer, so memory is asked for once.
const USUAL_LEN: usize = 16;

/// Codes, each known by its place. Codes repeat pieces of each other, so each piece is kept once, and
/// of a code the numbers of its pieces.
#[derive(Drop)]
pub struct Rows {
    pieces: Pieces,
    // Of each code the numbers of its pieces, in bytes.
    rows: Codes,
}

impl Model for Rows {
    ghost use Rattle.std.specs.Prelude.{ℕ, List, length, map};
    ghost use Rattle.l4_explore.specs.Inner.Rows.{whole, AreRows};

    ghost Value = { List (List ℕ) };

    ghost view = { λ r. map (whole r.pieces) r.rows };

    ghost invariant = { λ r. AreRows (length r.pieces) r.rows };
}

impl Rows {
    /// No codes.
    ///
    /// `AllocError`: memory was refused.
    pub(crate) fn new(alloc: Global) -> Result<Rows, AllocError>
        ensures { IfOk result (λ rows. rows ≡ []) }
    {
        Ok(Rows {
            pieces: Pieces::new(alloc)?,
            rows: Codes::new(alloc),
        })
    }

    /// How many codes there are.
    pub(crate) fn len(&self) -> usize
        ensures { result ≡ length self.now }
    {
        self.rows.len()
    }

    /// Appends the code at a place.
    ///
    /// `AllocError`: memory was refused.
    pub(crate) fn append(&self, place: usize, code: &mut Vec<u8>) -> Result<(), AllocError>
        requires { place < length self.now }
        ensures { OnOk result (code.new.items ≡ code.old.items ++ code_at self.now place) }
    {
        let mut row = self.rows.code(place);
        while let Some((number, others)) = first_number(row) {
            self.pieces.append(number, code)?;
            row = others;
        }
        Ok(())
    }

    /// Whether this is the code at a place.
    pub(crate) fn is_at(&self, place: usize, code: &[u8]) -> bool
        requires { place < length self.now }
        ensures { result ≡ bytes_eq (code_at self.now place) code.now }
    {
        let mut rest = code;
        let mut row = self.rows.code(place);
        while let Some((number, others)) = first_number(row) {
            match self.pieces.behind(number, rest) {
                Some(left) => rest = left,
                None => return false,
            }
            row = others;
        }
        rest.is_empty()
    }

    /// Adds a code at the end.
    ///
    /// `AllocError`: memory was refused, or all parts, or the numbers of all pieces or of all codes,
    /// would have 2^32 bytes or more.
    pub(crate) fn push(&mut self, alloc: Global, code: &[u8]) -> Result<(), AllocError>
        ensures ok { OnOk result (self.new ≡ self.old ++ code.now ∷ []) }
        ensures err { OnErr result (self.new ≡ self.old) }
    {
        let row = row_of(alloc, &mut self.pieces, code)?;
        self.rows.push(&row)
    }
}

// The numbers of the pieces of a code, in bytes. Pieces that are new are added, and stay if memory is
// refused then.
fn row_of(alloc: Global, pieces: &mut Pieces, code: &[u8]) -> Result<Vec<u8>, AllocError>
    ensures ok { IfOk result (λ row. IsRowOf pieces.new row.items code.now) }
    ensures more { AreLonger pieces.old pieces.new }
{
    let mut row = Vec::with_capacity(alloc, USUAL_LEN)?;
    let mut rest = code;
    while !rest.is_empty() {
        let (piece, others) = rest.split_at(piece_len(rest));
        let number = pieces.number_of(alloc, piece)?;
        push_number(&mut row, number)?;
        rest = others;
    }
    Ok(row)
}

// How long the first piece of a code is. Any other rule would do, and only another number of pieces
// would be kept.
fn piece_len(code: &[u8]) -> usize
    requires { 0 < length code.now }
    ensures some { 0 < result }
    ensures inside { result ≤ length code.now }
{
    let mut len = part_len(code);
    let mut parts = 1;
    while parts < PARTS && len < code.len() {
        len += part_len(&code[len..]);
        parts += 1;
    }
    len
}
