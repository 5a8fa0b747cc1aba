//! Parts of states, each known by its number.
ghost use Rattle.std.specs.Prelude.{◌≡◌, ◌<◌, ◌^◌, true, IfOk, IfSome, length};
ghost use Rattle.l4_parts.specs.Inner.Numbers.{HasNumber, IsKept};

use l4_codes::code::Code;
use l4_sets::Contacts;
use std::alloc::{AllocError, Global};
use std::hash::{FoldHasher, Hasher};

// A part is looked up where an event is found out, which takes longer than to go along a chain of
// some hundred.
const BUCKETS: usize = 4096;

/// A part of a state.
#[derive(Drop)]
pub struct Part {
    /// At which place of a state it may stand.
    pub place: u32,
    /// Its code, by itself.
    pub code: Code,
    /// Whether nothing is to be done, armed or under way there.
    pub rests: bool,
    /// Whom a processor waits for, and whom it may post to. Of letters this is nobody.
    pub contacts: Contacts,
    /// How many choices there are by this part alone.
    pub moves: u32,
}

impl Part {
    // Whether it has this place and this code.
    fn is(&self, place: u32, code: &Code) -> bool
        ensures place { result ≡ true → self.now.place ≡ place }
        ensures code { result ≡ true → self.now.code ≡ code.now }
    {
        self.place == place && is_same(&self.code, code)
    }
}

// Whether two codes are the same.
fn is_same(a: &Code, b: &Code) -> bool
    ensures { result ≡ true → a.now ≡ b.now }
{
    a.zeros() == b.zeros() && a.bytes() == b.bytes()
}

/// Parts of states, each known by its number.
#[derive(Drop)]
pub struct Parts {
    /// The parts, by their numbers.
    pub parts: Vec<Part>,
    // Of each bucket the number of its last part, plus 1, or 0. A chain leads to lower numbers.
    lasts: Vec<u32>,
    // Of each part the same of the one before it.
    befores: Vec<u32>,
}

impl Parts {
    /// No parts.
    ///
    /// `AllocError`: memory was refused.
    pub fn new(alloc: Global) -> Result<Parts, AllocError>
        ensures { IfOk result (λ parts. length parts.parts.items ≡ 0) }
    {
        Ok(Parts {
            parts: Vec::new(alloc),
            lasts: Vec::from_elem(alloc, 0, BUCKETS)?,
            befores: Vec::new(alloc),
        })
    }

    /// The number of a part, which is added if it is new.
    ///
    /// `AllocError`: memory was refused, or there are 2^32 parts.
    pub fn number_of(&mut self, part: Part) -> Result<u32, AllocError>
        ensures kept { IsKept self.old.parts.items self.new.parts.items part }
        ensures number { IfOk result (HasNumber self.new.parts.items part.place part.code) }
    {
        if let Some(number) = self.find(part.place, &part.code) {
            return Ok(number);
        }
        self.add(part)
    }

    // The number of a part, if it is known.
    fn find(&self, place: u32, code: &Code) -> Option<u32>
        ensures { IfSome result (HasNumber self.now.parts.items place code.now) }
    {
        let mut next = self.last(code);
        while next > 0 {
            let number = (next - 1) as usize;
            if number >= self.parts.len() || number >= self.befores.len() {
                return None;
            }
            if self.parts[number].is(place, code) {
                return Some(next - 1);
            }
            let before = self.befores[number];
            if before >= next {
                return None;
            }
            next = before;
        }
        None
    }

    // The number of the last part in the bucket of a code, plus 1, or 0.
    fn last(&self, code: &Code) -> u32 {
        if self.lasts.is_empty() {
            return 0;
        }
        self.lasts[bucket(code, self.lasts.len())]
    }

    // Adds a part.
    fn add(&mut self, part: Part) -> Result<u32, AllocError>
        ensures kept { IsKept self.old.parts.items self.new.parts.items part }
        ensures number { IfOk result (HasNumber self.new.parts.items part.place part.code) }
    {
        let number = self.parts.len();
        if number >= u32::MAX as usize {
            return Err(AllocError);
        }
        let before = self.last(&part.code);
        self.befores.push(before)?;
        self.put_last(&part.code, number as u32 + 1);
        self.parts.push(part)?;
        Ok(number as u32)
    }

    // Makes a part the last one in the bucket of its code.
    fn put_last(&mut self, code: &Code, last: u32)
        ensures { self.new.parts ≡ self.old.parts }
    {
        if !self.lasts.is_empty() {
            let bucket = bucket(code, self.lasts.len());
            self.lasts[bucket] = last;
        }
    }
}

// Which of so many buckets a code belongs to.
fn bucket(code: &Code, count: usize) -> usize
    requires { 0 < count }
    ensures { result < count }
{
    let mut hasher = FoldHasher::default();
    hasher.write(code.bytes());
    (hasher.finish() % count as u64) as usize
}
