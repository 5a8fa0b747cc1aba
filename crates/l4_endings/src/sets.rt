//! Persistent sets of states, by their rows.
ghost use Rattle.std.specs.Prelude.{ℕ, ◌≡◌, ◌<◌, true, IfOk};
ghost use Rattle.l4_parts.specs.Inner.Rows.{AreNumbers};
ghost use Rattle.l4_sets.specs.Inner.Sets.{has};
ghost use Rattle.l4_endings.specs.Inner.Posted.{may_post_in, IsClosedIn};

use l4_parts::parts::Part;
use l4_parts::rows::{pair_place, part};
use l4_sets::{Processors, smallest_closed};
use std::alloc::{AllocError, Global};

// Whether a processor may post to another one on an empty way.
fn may_post(parts: &[Part], row: &[u32], cpus: u8, from: u8, to: u8) -> bool
    requires most { cpus < 17 }
    requires numbers { AreNumbers parts.now row.now cpus }
    requires from { from < cpus }
    requires to { to < cpus }
    ensures { result ≡ may_post_in parts.now row.now cpus from to }
{
    part(parts, row, pair_place(cpus, from, to)).rests
        && (part(parts, row, from as usize).contacts.posts.has(to)
            || part(parts, row, to as usize).contacts.waits.has(from))
}

// Who may post to a processor on an empty way.
fn posters(parts: &[Part], row: &[u32], cpus: u8, to: u8) -> Processors
    requires most { cpus < 17 }
    requires numbers { AreNumbers parts.now row.now cpus }
    requires to { to < cpus }
    ensures { (from : ℕ) → from < cpus → may_post_in parts.now row.now cpus from to ≡ true →
        has result from ≡ true }
{
    let mut posters = Processors::none();
    for from in 0..cpus {
        if may_post(parts, row, cpus, from, to) {
            posters = posters.union(Processors::one(from));
        }
    }
    posters
}

// How many choices a processor has.
fn moves(parts: &[Part], row: &[u32], cpus: u8, cpu: u8) -> u32
    requires numbers { AreNumbers parts.now row.now cpus }
    requires cpu { cpu < cpus }
{
    let mut moves = part(parts, row, cpu as usize).moves;
    for from in 0..cpus {
        moves = part(parts, row, pair_place(cpus, from, cpu))
            .moves
            .saturating_add(moves);
    }
    moves
}

/// A persistent set with few choices, but one at least, unless there is none.
///
/// `AllocError`: memory was refused.
pub(crate) fn persistent_set(
    alloc: Global,
    parts: &[Part],
    row: &[u32],
    cpus: u8,
) -> Result<Processors, AllocError>
    requires most { cpus < 17 }
    requires numbers { AreNumbers parts.now row.now cpus }
    ensures { IfOk result (IsClosedIn parts.now row.now cpus) }
{
    let mut all_posters = Vec::with_capacity(alloc, cpus as usize)?;
    let mut all_moves = Vec::with_capacity(alloc, cpus as usize)?;
    for cpu in 0..cpus {
        all_posters.push(posters(parts, row, cpus, cpu))?;
        all_moves.push(moves(parts, row, cpus, cpu))?;
    }
    Ok(smallest_closed(&all_posters, &all_moves))
}
