//! A table of codes in parts, in which a code is looked up.
ghost use Rattle.std.specs.Prelude.{◌≡◌, ◌+◌, ◌<◌, ◌≤◌, ◌++◌, ◌∷◌, ◌^◌, [], ℕ, IfNone, IfOk};
ghost use Rattle.std.specs.Prelude.{IfSome, OnErr, OnOk, length};
ghost use Rattle.std.specs.Str.{bytes_eq};
ghost use Rattle.l4_explore.specs.Inner.Codes.{code_at};
ghost use Rattle.l4_explore.specs.Inner.Table.{AreChains};

use crate::rows::Rows;
use crate::table::{FEWEST, bucket, link};
use std::alloc::{AllocError, Global};
use std::marker::Model;

/// At least one code. Each is found in its bucket, in a chain from the last one to the first, as in
/// a `CodeTable`.
#[derive(Drop)]
pub struct RowTable {
    codes: Rows,
    // The place of the last code of each bucket, or 0. The first code ends the chain of each.
    lasts: Vec<u32>,
    // The place of the one before each code, in its bucket, or 0.
    befores: Vec<u32>,
}

impl Model for RowTable {
    ghost use Rattle.std.specs.Prelude.{ℕ, List};
    ghost use Rattle.l4_explore.specs.Inner.Table.{IsTable};

    ghost Value = { List (List ℕ) };

    ghost view = { λ t. t.codes };

    ghost invariant = { λ t. IsTable t.codes t.lasts.items t.befores.items };
}

impl RowTable {
    /// One code.
    ///
    /// `AllocError`: memory was refused.
    pub(crate) fn new(alloc: Global, first: &[u8]) -> Result<RowTable, AllocError>
        ensures { IfOk result (λ table. table ≡ first.now ∷ []) }
    {
        let mut codes = Rows::new(alloc)?;
        codes.push(alloc, first)?;
        Ok(RowTable {
            codes,
            lasts: Vec::from_elem(alloc, 0, FEWEST)?,
            befores: Vec::from_elem(alloc, 0, 1)?,
        })
    }

    /// How many codes there are.
    pub(crate) fn len(&self) -> usize
        ensures value { result ≡ length self.now }
        ensures some { 0 < result }
    {
        self.codes.len()
    }

    /// The code at a place.
    ///
    /// `AllocError`: memory was refused.
    pub(crate) fn code(&self, alloc: Global, place: usize) -> Result<Vec<u8>, AllocError>
        requires { place < length self.now }
        ensures { IfOk result (λ code. code.items ≡ code_at self.now place) }
    {
        let mut code = Vec::new(alloc);
        self.codes.append(place, &mut code)?;
        Ok(code)
    }

    /// The place of a code. None if it is not among them.
    pub(crate) fn find(&self, code: &[u8]) -> Option<usize>
        ensures found { IfSome result (λ place.
            (place < length self.now) × (code_at self.now place ≡ code.now)) }
        ensures absent { IfNone result ((place : ℕ) →
            place < length self.now → code_at self.now place ≡ code.now → ⊥) }
    {
        let mut place = self.lasts[bucket(code, self.lasts.len())] as usize;
        while !self.is_at(place, code) {
            if place == 0 {
                return None;
            }
            place = self.befores[place] as usize;
        }
        Some(place)
    }

    // Whether this is the code at a place.
    fn is_at(&self, place: usize, code: &[u8]) -> bool
        requires { place < length self.now }
        ensures { result ≡ bytes_eq (code_at self.now place) code.now }
    {
        self.codes.is_at(place, code)
    }

    /// Adds a code at the end.
    ///
    /// `AllocError`: memory was refused.
    pub(crate) fn push(&mut self, alloc: Global, code: &[u8]) -> Result<(), AllocError>
        requires { length self.old < 2 ^ 32 }
        ensures ok { OnOk result (self.new ≡ self.old ++ code.now ∷ []) }
        ensures err { OnErr result (self.new ≡ self.old) }
    {
        let place = self.len();
        if place / 2 == self.lasts.len() {
            self.grow(alloc)?;
        }
        self.befores.reserve(1)?;
        self.codes.push(alloc, code)?;
        self.befores.push_reserved(0);
        chain(&self.codes, place, code, &mut self.lasts, &mut self.befores);
        Ok(())
    }

    // Twice as many buckets.
    fn grow(&mut self, alloc: Global) -> Result<(), AllocError>
        requires { length self.old ≤ 2 ^ 32 }
        ensures { self.new ≡ self.old }
    {
        let mut lasts = Vec::from_elem(alloc, 0, 2 * self.lasts.len())?;
        let mut befores = Vec::from_elem(alloc, 0, self.codes.len())?;
        chain_all(alloc, &self.codes, &mut lasts, &mut befores)?;
        self.lasts = lasts;
        self.befores = befores;
        Ok(())
    }
}

// Puts each code into its bucket, one behind the other. The first one is in all.
fn chain_all(
    alloc: Global,
    codes: &Rows,
    lasts: &mut [u32],
    befores: &mut [u32],
) -> Result<(), AllocError>
    requires some { 0 < length codes.now }
    requires fits { length codes.now ≤ 2 ^ 32 }
    requires buckets { 0 < length lasts.old }
    requires room { length befores.old ≡ length codes.now }
    requires first { AreChains codes.now lasts.old befores.old 1 }
    ensures buckets { length lasts.new ≡ length lasts.old }
    ensures room { length befores.new ≡ length befores.old }
    ensures chains { OnOk result (AreChains codes.now lasts.new befores.new (length codes.now)) }
{
    let mut code = Vec::new(alloc);
    for place in 1..codes.len() {
        code.clear();
        codes.append(place, &mut code)?;
        chain(codes, place, &code, lasts, befores);
    }
    Ok(())
}

// Puts the code at a place into its bucket, behind those at lower places.
fn chain(codes: &Rows, place: usize, code: &[u8], lasts: &mut [u32], befores: &mut [u32])
    requires inside { place < length codes.now }
    requires at { code_at codes.now place ≡ code.now }
    requires later { 0 < place }
    requires fits { place < 2 ^ 32 }
    requires buckets { 0 < length lasts.old }
    requires room { place < length befores.old }
    requires chains { AreChains codes.now lasts.old befores.old place }
    ensures buckets { length lasts.new ≡ length lasts.old }
    ensures room { length befores.new ≡ length befores.old }
    ensures chains { AreChains codes.now lasts.new befores.new (place + 1) }
{
    link(bucket(code, lasts.len()), place, lasts, befores);
}
