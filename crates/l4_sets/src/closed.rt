//! The smallest set with all that may post to it.
ghost use Rattle.std.specs.Prelude.{ℕ, ◌≡◌, ◌<◌, ◌≤◌, true, length, slice_index_or};
ghost use Rattle.l4_sets.specs.Inner.Sets.{has, most, IsClosedUnder};

use crate::processors::Processors;

// A set, and those who may post to a processor of it.
fn with_posters(posters: &[Processors], set: Processors) -> Processors
    requires { length posters.now ≤ most }
    ensures { (from to : ℕ) → to < length posters.now → has set to ≡ true →
        has (slice_index_or posters.now to 0) from ≡ true → has result from ≡ true }
{
    let mut more = set;
    for cpu in 0..posters.len() {
        if set.has(cpu as u8) {
            more = more.union(posters[cpu]);
        }
    }
    more
}

// The smallest closed set with a processor. Each round but the last has one more processor.
fn closed_with(posters: &[Processors], cpu: u8) -> Processors
    requires few { length posters.now ≤ most }
    requires cpu { cpu < most }
    ensures { IsClosedUnder posters.now result }
{
    let mut set = Processors::one(cpu);
    for _ in 0..posters.len() {
        let more = with_posters(posters, set);
        if more == set {
            return set;
        }
        set = more;
    }
    Processors::from(0)
}

// How many choices the processors of a set have.
fn moves_of(moves: &[u32], set: Processors) -> u32
    requires { length moves.now ≤ most }
{
    let mut count = 0;
    for cpu in 0..moves.len() {
        if set.has(cpu as u8) {
            count = moves[cpu].saturating_add(count);
        }
    }
    count
}

/// A closed set with the fewest choices, but one at least: with each processor it has all that may
/// post to it. Of each processor it is given who may, and how many choices it has. Of several such
/// sets it is that of the lowest processor. Where nobody has a choice it is the set of all.
pub fn smallest_closed(posters: &[Processors], moves: &[u32]) -> Processors
    requires few { length posters.now ≤ most }
    requires each { length moves.now ≡ length posters.now }
    ensures { IsClosedUnder posters.now result }
{
    let mut smallest = Processors::from(0);
    let mut fewest = u32::MAX;
    for cpu in 0..moves.len() {
        if moves[cpu] > 0 {
            let set = closed_with(posters, cpu as u8);
            let count = moves_of(moves, set);
            if count < fewest {
                smallest = set;
                fewest = count;
            }
        }
    }
    smallest
}
