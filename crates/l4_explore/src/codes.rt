//! Codes, lists of bytes, one behind the other.
ghost use Rattle.std.specs.Prelude.{◌≡◌, ◌<◌, ◌≤◌, ◌++◌, ◌∷◌, [], OnErr, OnOk, length};
ghost use Rattle.l4_explore.specs.Inner.Codes.{code_at, start_of};

use std::alloc::{AllocError, Global};
use std::marker::Model;

/// Codes, each known by its place.
#[derive(Drop)]
pub struct Codes {
    bytes: Vec<u8>,
    // Where each code ends in `bytes`, below 2^32. It begins where the one before it ends.
    ends: Vec<u32>,
}

impl Model for Codes {
    ghost use Rattle.std.specs.Prelude.{ℕ, List};
    ghost use Rattle.l4_explore.specs.Inner.Codes.{codes_of, AreEnds};

    ghost Value = { List (List ℕ) };

    ghost view = { λ c. codes_of c.bytes.items c.ends.items };

    ghost invariant = { λ c. AreEnds c.bytes.items c.ends.items };
}

impl Codes {
    /// No codes. Nothing is allocated.
    pub(crate) fn new(alloc: Global) -> Codes
        ensures { result ≡ [] }
    {
        Codes {
            bytes: Vec::new(alloc),
            ends: Vec::new(alloc),
        }
    }

    /// How many codes there are.
    pub(crate) fn len(&self) -> usize
        ensures { result ≡ length self.now }
    {
        self.ends.len()
    }

    /// The code at a place.
    pub(crate) fn code(&self, place: usize) -> &[u8]
        requires { place < length self.now }
        ensures { result.now ≡ code_at self.now place }
    {
        &self.bytes[start(&self.ends, place)..self.ends[place] as usize]
    }

    /// Adds a code at the end.
    ///
    /// `AllocError`: memory was refused, or all codes would have 2^32 bytes or more.
    pub(crate) fn push(&mut self, code: &[u8]) -> Result<(), AllocError>
        ensures ok { OnOk result (self.new ≡ self.old ++ code.now ∷ []) }
        ensures err { OnErr result (self.new ≡ self.old) }
    {
        let end = self.bytes.len() + code.len();
        if end > u32::MAX as usize {
            return Err(AllocError);
        }
        self.ends.reserve(1)?;
        self.bytes.extend_from_slice(code)?;
        self.ends.push_reserved(end as u32);
        Ok(())
    }
}

// Where the code at a place begins, among codes that end there.
fn start(ends: &[u32], place: usize) -> usize
    requires { place ≤ length ends.now }
    ensures { result ≡ start_of ends.now place }
{
    if place == 0 {
        0
    } else {
        ends[place - 1] as usize
    }
}
