//! Where threads stand in the order of declaration, found by their numbers.
ghost use Rattle.std.specs.Prelude.{◌≡◌, ◌==◌, ℕ, if◌then◌else◌, Some, None, OnErr, OnOk, IfOk};
ghost use Rattle.std.specs.Prelude.{nat_eq};
ghost use Rattle.std.specs.HashMap.{get};
ghost use Rattle.l4_script.specs.Inner.Places.{place_by, slot_of};

use l4_types::errors::NoMemory;
use std::alloc::Global;
use std::collections::HashMap;

/// The number of slots, one for each thread of a machine at most: consecutive thread numbers never
/// collide.
const SLOTS: u32 = 1024;

/// The number of a thread, and its place.
#[derive(Clone, Copy, Debug)]
struct Placed {
    number: u32,
    place: u16,
}

/// The places of threads by their numbers. A look-up takes no memory.
#[derive(Debug, Drop)]
pub(crate) struct Places {
    // The threads in the slots of their numbers, up to the last slot that is taken.
    slots: Vec<Option<Placed>>,
    // The places of threads whose slot was taken already, by their numbers.
    others: HashMap<u32, u16>,
}

/// The slot of a number.
fn slot_of(number: u32) -> usize
    ensures { result ≡ slot_of number }
{
    (number % SLOTS) as usize
}

impl Places {
    /// An empty table.
    pub(crate) fn new(alloc: Global) -> Places
        ensures { (number : ℕ) → place_by result number ≡ None }
    {
        Places {
            slots: Vec::new(alloc),
            others: HashMap::new(alloc),
        }
    }

    /// The place of the thread of this number.
    #[inline(always)]
    pub(crate) fn get(&self, number: u32) -> Option<usize>
        ensures { result ≡ place_by self.now number }
    {
        match self.slots.get(slot_of(number)) {
            Some(Some(placed)) if placed.number == number => Some(usize::from(placed.place)),
            _ => self.get_other(number),
        }
    }

    // The place of the thread of this number whose slot was taken already.
    #[inline(never)]
    fn get_other(&self, number: u32) -> Option<usize>
        ensures { result ≡ get nat_eq self.now.others number }
    {
        self.others.get(&number).map(|place| usize::from(*place))
    }

    /// Adds the place of a thread. Its number is not in the table yet.
    pub(crate) fn insert(&mut self, number: u32, place: u16) -> Result<(), NoMemory>
        requires { place_by self.old number ≡ None }
        ensures ok { OnOk result ((other : ℕ) → place_by self.new other ≡
            (if other == number then Some place else place_by self.old other)) }
        ensures err { OnErr result ((other : ℕ) →
            place_by self.new other ≡ place_by self.old other) }
    {
        let slot = slot_of(number);
        if slot >= self.slots.len() {
            self.slots.resize(slot + 1, None)?;
        }
        if self.slots[slot].is_none() {
            self.slots[slot] = Some(Placed { number, place });
        } else {
            self.others.insert(number, place)?;
        }
        Ok(())
    }

    /// A copy.
    pub(crate) fn try_clone(&self) -> Result<Places, NoMemory>
        ensures { IfOk result (λ copy. (number : ℕ) →
            place_by copy number ≡ place_by self.now number) }
    {
        Ok(Places {
            slots: self.slots.clone()?,
            others: self.others.clone()?,
        })
    }
}
