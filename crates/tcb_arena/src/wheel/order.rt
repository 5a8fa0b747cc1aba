//! The order of armed blocks: the first one, the next one, and the place of one more.

ghost use Rattle.std.specs.Prelude.{◌≡◌, ℕ, ◌+◌, ◌<◌, true, false, find, length, slice_get};
ghost use Rattle.std.specs.Prelude.{IfSome, Some};
ghost use Rattle.tcb_arena.specs.Inner.Blocks.{has_entry};
ghost use Rattle.tcb_arena.specs.Inner.Rings.{head_count, is_linked, list_at};
ghost use Rattle.tcb_arena.specs.Inner.Due.{armed_of, is_later, AreOnce, AreRising};

use crate::iter::Blocks;
use crate::links::Rings;
use crate::wheel::Wheel;

// How many spans a search for a place looks at, at most, until it begins at the first block.
const LOOKS: usize = 8;

impl Wheel {
    /// The first armed block with its deadline.
    pub(crate) fn first_armed(&self) -> Option<(u64, usize)>
        ensures first { result ≡ slice_get (armed_of self.now) 0 }
        ensures once { AreOnce self.now }
    {
        let _once = self.rings.names();
        let first = self.order.first(0)?;
        Some((self.deadlines[first], first))
    }

    /// The armed block that comes after this one, with its deadline.
    pub(crate) fn after(&self, block: usize) -> Option<(u64, usize)>
        requires { has_entry block (armed_of self.now) ≡ true }
        ensures { (place deadline : ℕ) →
            slice_get (armed_of self.now) place ≡ Some (deadline, block) →
            result ≡ slice_get (armed_of self.now) (place + 1) }
    {
        let next = self.order.after(block)?;
        Some((self.deadlines[next], next))
    }
}

/// The span of a deadline that is so many ticks ahead: up to 16 the ticks themselves, and above an
/// eighth of what lies between two powers of two.
pub fn span_of(ahead: u64) -> usize {
    let halvings = 60usize.saturating_sub(ahead.leading_zeros() as usize);
    (halvings * 8).wrapping_add((ahead >> halvings) as usize)
}

/// The first block that is armed for a later deadline. `order` has the armed blocks by rising
/// deadline.
pub fn first_later(
    order: &Rings,
    deadlines: &Vec<u64>,
    latest: &Vec<usize>,
    deadline: u64,
    span: usize,
) -> Option<usize>
    requires head { head_count order.now ≡ 1 }
    requires names { order.now.names ≡ length deadlines.now.items }
    requires span { span < length latest.now.items }
    requires rising { AreRising deadlines.now.items (list_at order.now 0) }
    ensures { result ≡ find (is_later deadlines.now.items deadline) (list_at order.now 0) }
{
    match start(order, deadlines, latest, deadline, span) {
        Some(start) => {
            Blocks::behind(order, start).find(|block| is_later(deadlines, *block, deadline))
        }
        None => Blocks::new(order, 0).find(|block| is_later(deadlines, *block, deadline)),
    }
}

// A block that is armed for no later deadline: the latest of this span or of one of those before
// it, if there is one.
fn start(
    order: &Rings,
    deadlines: &Vec<u64>,
    latest: &Vec<usize>,
    deadline: u64,
    span: usize,
) -> Option<usize>
    requires names { order.now.names ≡ length deadlines.now.items }
    requires span { span < length latest.now.items }
    ensures within { IfSome result (λ start. start < order.now.names) }
    ensures linked { IfSome result (λ start. is_linked order.now start ≡ true) }
    ensures early { IfSome result (λ start.
        is_later deadlines.now.items deadline start ≡ false) }
{
    let mut at = span;
    for _ in 0..LOOKS {
        let block = latest[at];
        if block < order.names()
            && order.is_linked(block)
            && !is_later(deadlines, block, deadline)
        {
            return Some(block);
        }
        at = at.checked_sub(1)?;
    }
    None
}

// Whether a block is armed for a later deadline.
fn is_later(deadlines: &Vec<u64>, block: usize, deadline: u64) -> bool
    requires { block < length deadlines.now.items }
    ensures { result ≡ is_later deadlines.now.items deadline block }
{
    deadlines[block] > deadline
}
