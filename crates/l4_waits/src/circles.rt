//! Circles of threads that wait for each other.
ghost use Rattle.std.specs.Prelude.{◌≡◌, ◌↔◌, ℕ, ◌∷◌, Option, Some, List, IfOk};
ghost use Rattle.std.specs.Option.{option_map};
ghost use Rattle.l4_waits.specs.Circles.{partner, place_in, next_of, nexts_of, next_at, circle_at};
ghost use Rattle.l4_waits.specs.Circles.{IsCircle};

use l4_audit::waits::Wait;
use l4_types::errors::NoMemory;
use l4_types::ids::GlobalId;
use std::alloc::Global;

// The one thread that a waiting thread waits for, if there is one.
fn partner(wait: &Wait) -> Option<GlobalId>
    ensures { result ≡ partner wait.now }
{
    match wait {
        Wait::Send(to) => to.as_global(),
        Wait::Arrival(_) => None,
        Wait::Receive(from) => from.as_global(),
    }
}

// The place of a thread among those that wait.
fn place_in(waits: &[(GlobalId, Wait)], id: GlobalId) -> Option<usize>
    ensures { result ≡ place_in waits.now id }
{
    waits.iter().position(|other| other.0 == id)
}

// The place of a thread's partner among those that wait.
fn next_of(waits: &[(GlobalId, Wait)], thread: &(GlobalId, Wait)) -> Option<usize>
    ensures { result ≡ next_of waits.now thread.now }
{
    place_in(waits, partner(&thread.1)?)
}

/// The place of each thread's partner among those that wait. None where it has no partner, or one
/// that does not wait.
pub(crate) fn nexts_of(
    alloc: Global,
    waits: &[(GlobalId, Wait)],
) -> Result<Vec<Option<usize>>, NoMemory>
    ensures { IfOk result (λ nexts. nexts.items ≡ nexts_of waits.now) }
{
    let mut nexts = Vec::with_capacity(alloc, waits.len())?;
    for thread in waits {
        nexts.push(next_of(waits, thread))?;
    }
    Ok(nexts)
}

fn next_at(nexts: &[Option<usize>], place: usize) -> Option<usize>
    ensures { result ≡ next_at nexts.now place }
{
    nexts.get(place).copied().unwrap_or(None)
}

/// The places of the circle that begins with this one, which is the first of them in order of
/// declaration.
pub(crate) fn circle_at(
    alloc: Global,
    nexts: &[Option<usize>],
    first: usize,
) -> Result<Option<Vec<usize>>, NoMemory>
    ensures { IfOk result (λ circle.
        option_map (λ places. places.items) circle ≡ circle_at nexts.now first) }
{
    let mut circle = Vec::new(alloc);
    circle.push(first)?;
    let mut at = next_at(nexts, first);
    for _left in 0..nexts.len() {
        let Some(place) = at else {
            return Ok(None);
        };
        if place == first {
            return Ok(Some(circle));
        }
        if place < first {
            return Ok(None);
        }
        circle.push(place)?;
        at = next_at(nexts, place);
    }
    Ok(None)
}

/// A circle is found exactly where there is one: each thread waits for the next, and the last for
/// the first. Of its threads the first was declared first.
pub fn law_circles()
    ensures { (nexts : List (Option ℕ)) (first : ℕ) (others : List ℕ) →
        (circle_at nexts first ≡ Some (first ∷ others)) ↔ IsCircle nexts first others }
{}
