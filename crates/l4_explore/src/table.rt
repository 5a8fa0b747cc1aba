//! A table of codes, in which a code is looked up.
ghost use Rattle.std.specs.Prelude.{◌≡◌, ◌+◌, ◌<◌, ◌≤◌, ◌++◌, ◌∷◌, ◌^◌, [], ℕ, List, IfNone, IfOk};
ghost use Rattle.std.specs.Prelude.{IfSome, OnErr, OnOk, length};
ghost use Rattle.std.specs.Str.{bytes_eq};
ghost use Rattle.l4_explore.specs.Inner.Codes.{bucket_of, code_at};
ghost use Rattle.l4_explore.specs.Inner.Table.{AreChains};

use crate::codes::Codes;
use std::alloc::{AllocError, Global};
use std::hash::{FoldHasher, Hasher};
use std::marker::Model;

// How many buckets a table begins with.
pub(crate) const FEWEST: usize = 8;

/// At least one code. Each is found in its bucket, in a chain from the last one to the first.
#[derive(Drop)]
pub struct CodeTable {
    codes: Codes,
    // The place of the last code of each bucket, or 0. The first code ends the chain of each.
    lasts: Vec<u32>,
    // The place of the one before each code, in its bucket, or 0.
    befores: Vec<u32>,
}

impl Model for CodeTable {
    ghost use Rattle.std.specs.Prelude.{ℕ, List};
    ghost use Rattle.l4_explore.specs.Inner.Table.{IsTable};

    ghost Value = { List (List ℕ) };

    ghost view = { λ t. t.codes };

    ghost invariant = { λ t. IsTable t.codes t.lasts.items t.befores.items };
}

impl CodeTable {
    /// One code.
    ///
    /// `AllocError`: memory was refused.
    pub(crate) fn new(alloc: Global, first: &[u8]) -> Result<CodeTable, AllocError>
        ensures { IfOk result (λ table. table ≡ first.now ∷ []) }
    {
        let mut codes = Codes::new(alloc);
        codes.push(first)?;
        Ok(CodeTable {
            codes,
            lasts: Vec::from_elem(alloc, 0, FEWEST)?,
            befores: Vec::from_elem(alloc, 0, 1)?,
        })
    }

    /// How many codes there are.
    pub(crate) fn len(&self) -> usize
        ensures value { result ≡ length self.now }
        ensures some { 0 < result }
    {
        self.codes.len()
    }

    /// The code at a place.
    pub(crate) fn code(&self, place: usize) -> &[u8]
        requires { place < length self.now }
        ensures { result.now ≡ code_at self.now place }
    {
        self.codes.code(place)
    }

    /// The place of a code. None if it is not among them.
    pub(crate) fn find(&self, code: &[u8]) -> Option<usize>
        ensures found { IfSome result (λ place.
            (place < length self.now) × (code_at self.now place ≡ code.now)) }
        ensures absent { IfNone result ((place : ℕ) →
            place < length self.now → code_at self.now place ≡ code.now → ⊥) }
    {
        let mut place = self.lasts[bucket(code, self.lasts.len())] as usize;
        while !self.is_at(place, code) {
            if place == 0 {
                return None;
            }
            place = self.befores[place] as usize;
        }
        Some(place)
    }

    // Whether this is the code at a place.
    fn is_at(&self, place: usize, code: &[u8]) -> bool
        requires { place < length self.now }
        ensures { result ≡ bytes_eq (code_at self.now place) code.now }
    {
        self.code(place) == code
    }

    /// Adds a code at the end.
    ///
    /// `AllocError`: memory was refused.
    pub(crate) fn push(&mut self, code: &[u8]) -> Result<(), AllocError>
        requires { length self.old < 2 ^ 32 }
        ensures ok { OnOk result (self.new ≡ self.old ++ code.now ∷ []) }
        ensures err { OnErr result (self.new ≡ self.old) }
    {
        let place = self.len();
        if place == self.lasts.len() {
            self.grow()?;
        }
        self.befores.reserve(1)?;
        self.codes.push(code)?;
        self.befores.push_reserved(0);
        chain(&self.codes, place, &mut self.lasts, &mut self.befores);
        Ok(())
    }

    // Twice as many buckets.
    fn grow(&mut self) -> Result<(), AllocError>
        requires { length self.old ≤ 2 ^ 32 }
        ensures { self.new ≡ self.old }
    {
        let mut lasts = Vec::from_elem(*self.lasts.allocator(), 0, 2 * self.lasts.len())?;
        chain_all(&self.codes, &mut lasts, &mut self.befores);
        self.lasts = lasts;
        Ok(())
    }
}

// Puts each code into its bucket, one behind the other. The first one is in all.
fn chain_all(codes: &Codes, lasts: &mut [u32], befores: &mut [u32])
    requires some { 0 < length codes.now }
    requires fits { length codes.now ≤ 2 ^ 32 }
    requires buckets { 0 < length lasts.old }
    requires room { length befores.old ≡ length codes.now }
    requires first { AreChains codes.now lasts.old befores.old 1 }
    ensures buckets { length lasts.new ≡ length lasts.old }
    ensures room { length befores.new ≡ length befores.old }
    ensures chains { AreChains codes.now lasts.new befores.new (length codes.now) }
{
    for place in 1..codes.len() {
        chain(codes, place, lasts, befores);
    }
}

// Puts the code at a place into its bucket, behind those at lower places.
fn chain(codes: &Codes, place: usize, lasts: &mut [u32], befores: &mut [u32])
    requires inside { place < length codes.now }
    requires later { 0 < place }
    requires fits { place < 2 ^ 32 }
    requires buckets { 0 < length lasts.old }
    requires room { place < length befores.old }
    requires chains { AreChains codes.now lasts.old befores.old place }
    ensures buckets { length lasts.new ≡ length lasts.old }
    ensures room { length befores.new ≡ length befores.old }
    ensures chains { AreChains codes.now lasts.new befores.new (place + 1) }
{
    link(
        bucket(codes.code(place), lasts.len()),
        place,
        lasts,
        befores,
    );
}

// Puts a place into a bucket, behind lower places: whatever the codes are, if the one at this place
// belongs there.
pub(crate) fn link(bucket: usize, place: usize, lasts: &mut [u32], befores: &mut [u32])
    requires later { 0 < place }
    requires fits { place < 2 ^ 32 }
    requires inside { bucket < length lasts.old }
    requires room { place < length befores.old }
    ensures buckets { length lasts.new ≡ length lasts.old }
    ensures room { length befores.new ≡ length befores.old }
    ensures chains { (codes : List (List ℕ)) → place < length codes →
        bucket ≡ bucket_of (length lasts.old) (code_at codes place) →
        AreChains codes lasts.old befores.old place →
        AreChains codes lasts.new befores.new (place + 1) }
{
    befores[place] = lasts[bucket];
    lasts[bucket] = place as u32;
}

// Which of so many buckets a code belongs to.
pub(crate) fn bucket(code: &[u8], count: usize) -> usize
    requires { 0 < count }
    ensures bucket { result ≡ bucket_of count code.now }
    ensures inside { result < count }
{
    let mut hasher = FoldHasher::default();
    hasher.write(code);
    (hasher.finish() % count as u64) as usize
}
