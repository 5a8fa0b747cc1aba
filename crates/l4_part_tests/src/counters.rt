// A search that leaves out choices finds all ends. Two counters go up to 2, each by itself. Of nine
// states it finds five, since the right one waits for the left one.
ghost use Rattle.std.specs.Prelude.{ℕ, ◌≡◌, ◌+◌, ◌<◌, ◌≤◌, ◌∷◌, [], IfOk, List, Some, map};
ghost use Rattle.l4_explore.specs.Inner.Ends.{AreAllEnds, AreEnough};
ghost use Rattle.l4_explore.specs.Search.{seen_at};
ghost use Rattle.l4_explore.specs.Inner.Views.{next_from, state_from};
ghost use Rattle.l4_part_tests.specs.Inner.Coded.{coded};
ghost use Rattle.l4_part_tests.specs.Inner.Counters.{at, state_after, EndsIn};

use l4_explore::found::Found;
use l4_explore::progress::Unheard;
use l4_explore::search::{Explored, explore};
use l4_explore::tries::{Choice, Reached, Tries};
use std::alloc::{AllocError, Global};

#[derive(Clone, Copy)]
struct Counters;

impl Tries for Counters {
    ghost state_of = { λ _. state_after };

    ghost offers = { λ _. AreEnough EndsIn };

    ghost coded = { λ _. coded };

    fn opening(&self, alloc: Global) -> Result<Reached, AllocError> {
        reached(alloc, 0, 0)
    }

    fn choices(
        &mut self,
        alloc: Global,
        found: &Found,
        place: usize,
    ) -> Result<Vec<Choice>, AllocError> {
        let kept = found.code(alloc, place)?;
        let code = kept.as_slice();
        let (left, right) = (code[0], code[1]);
        if left < 2 {
            return Ok(vec![in alloc; choice(alloc, 0, left + 1, right)?]?);
        }
        if right < 2 {
            return Ok(vec![in alloc; choice(alloc, 1, left, right + 1)?]?);
        }
        Ok(Vec::new(alloc))
    }
}

fn reached(alloc: Global, left: u8, right: u8) -> Result<Reached, AllocError>
    ensures { IfOk result (λ r. state_from r ≡ at left right) }
{
    Ok(Reached {
        code: vec![in alloc; left, right]?,
        is_end: left == 2 && right == 2,
    })
}

fn choice(alloc: Global, entry: u32, left: u8, right: u8) -> Result<Choice, AllocError>
    ensures { IfOk result (λ c.
        next_from c ≡ record { entry = entry; state = at left right }) }
{
    let reached = reached(alloc, left, right)?;
    Ok(Choice { entry, reached })
}

// All ends that schedules of at most `depth` entries lead to, in whatever order.
fn explore_counters(alloc: Global, depth: u32) -> Result<Explored, AllocError>
    ensures { IfOk result (λ r. AreAllEnds EndsIn (at 0 0) r.found r.depth r.is_whole) }
{
    explore(alloc, &mut Counters, depth, 100, &mut Unheard)
}

#[test]
fn the_end_is_found(rt: HostRuntime) {
    let explored = explore_counters(rt.alloc(), 100).ok().expect(&rt, "memory");
    assert!(rt; explored.is_whole && explored.depth == 4 && explored.found.len() == 5);
    let code = explored
        .found
        .code(rt.alloc(), 4)
        .ok()
        .expect(&rt, "memory");
    assert!(rt; explored.found.is_end(4) && code.as_slice() == [2, 2].as_slice());
}
