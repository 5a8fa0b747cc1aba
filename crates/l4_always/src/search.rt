//! The search for a world that meets a condition.
ghost use Rattle.std.specs.Prelude.{◌≡◌, ◌<◌, ◌||◌, IfNone, IfOk, IfSome, nat_le, true};
ghost use Rattle.l4_explore.specs.Search.{AreFound};
ghost use Rattle.l4_futures.specs.Inner.Search.{state_after};
ghost use Rattle.l4_futures.specs.Traces.{trace_along};
ghost use Rattle.l4_all_endings.specs.Tried.{LeadsToWorld};
ghost use Rattle.l4_invariants.specs.Invariants.{MeetsAtLast};
ghost use Rattle.l4_invariants.specs.Inner.Searched.{IsFirstMet, IsNoneMet};
ghost use Rattle.l4_condition_lines.specs.Conditions.{may_be_judged, meets};
ghost use Rattle.l4_always.specs.Always.{IsMet, IsVerdict};
ghost use Rattle.l4_always.specs.Inner.Unseen.{AreShort};

use crate::told::is_met;
use crate::watch::{AllWorlds, Watch};
use l4_all_endings::Way;
use l4_expect::conditions::Condition;
use l4_explore::found::Found;
use l4_explore::progress::Progress;
use l4_explore::search::{DEEPEST, Explored, explore};
use l4_outlooks::know_times;
use l4_script::machine::Machine;
use l4_types::errors::NoMemory;
use std::alloc::Global;

/// A world that meets a condition.
#[derive(Drop)]
pub struct Met {
    /// The entries of a history that comes to it (`l4_all_endings::trace_of`).
    pub entries: Vec<u32>,
    /// Whether no history of fewer steps but ticks meets the condition. Else it is not known.
    pub is_shortest: bool,
}

/// What a search says of a condition.
#[derive(Drop)]
pub struct Verdict {
    /// A world that meets it, if one was found. If none was, and the search is whole, no history
    /// meets it.
    pub met: Option<Met>,
    /// The number of worlds looked at, no two of them as good as each other.
    pub worlds: usize,
    /// The steps but ticks of the longest history that was needed, or, where the search was cut, of
    /// those to which it went on from each world.
    pub depth: usize,
    /// Whether the search is whole.
    pub is_whole: bool,
}

// The first found place whose world meets a condition.
fn first_met(
    alloc: Global,
    machine: &Machine,
    condition: &Condition<'_>,
    found: &Found,
) -> Result<Option<usize>, NoMemory>
    requires found { AreFound (state_after machine.now) found.now }
    requires short { AreShort found.now }
    ensures some { IfOk result (λ place. IfSome place
        (IsFirstMet machine.now found.now (meets machine.now condition.now))) }
    ensures none { IfOk result (λ place. IfNone place
        (IsNoneMet machine.now found.now (meets machine.now condition.now))) }
{
    let mut way = Way::new(alloc, machine)?;
    for place in 0..found.len() {
        let entries = found.schedule(alloc, place)?;
        let outlook = way.outlook(alloc, &entries)?;
        if is_met(alloc, machine, condition, &outlook)? {
            return Ok(Some(place));
        }
    }
    Ok(None)
}

// Whether a search has gone on from all states that fewer entries lead to, or from all.
fn has_tried(explored: &Explored, depth: usize) -> bool
    ensures { result ≡ (explored.now.is_whole || nat_le depth explored.now.depth) }
{
    explored.is_whole || depth <= explored.depth
}

// A history that meets a condition, as short as a search by all steps finds one, among `most` worlds
// at most. These entries have a history that does.
fn nearest<P: Progress>(
    alloc: Global,
    machine: &Machine,
    condition: &Condition<'_>,
    most: u32,
    entries: Vec<u32>,
    progress: &mut P,
) -> Result<Met, NoMemory>
    requires some { 0 < most }
    requires judged { may_be_judged condition.now ≡ true }
    requires led { LeadsToWorld machine.now entries.items }
    requires meets { MeetsAtLast machine.now (meets machine.now condition.now)
        (trace_along machine.now entries.items) }
    ensures { IfOk result (IsMet machine.now (meets machine.now condition.now) most) }
{
    know_times(machine);
    let mut worlds = AllWorlds::new(alloc, machine)?;
    let depth = entries.len().saturating_sub(1) as u32;
    let explored = explore(alloc, &mut worlds, depth, most, progress)?;
    match first_met(alloc, machine, condition, &explored.found)? {
        Some(place) => {
            let nearer = explored.found.schedule(alloc, place)?;
            Ok(Met {
                entries: nearer,
                is_shortest: true,
            })
        }
        None => {
            let is_shortest = has_tried(&explored, depth as usize);
            Ok(Met {
                entries,
                is_shortest,
            })
        }
    }
}

// A world among those that were found that meets a condition, by a history as short as one is found.
fn met_among<P: Progress>(
    alloc: Global,
    machine: &Machine,
    condition: &Condition<'_>,
    most: u32,
    found: &Found,
    progress: &mut P,
) -> Result<Option<Met>, NoMemory>
    requires some { 0 < most }
    requires found { AreFound (state_after machine.now) found.now }
    requires short { AreShort found.now }
    ensures some { IfOk result (λ met. IfSome met
        (IsMet machine.now (meets machine.now condition.now) most)) }
    ensures none { IfOk result (λ met. IfNone met
        (IsNoneMet machine.now found.now (meets machine.now condition.now))) }
{
    know_times(machine);
    condition.facts();
    let Some(place) = first_met(alloc, machine, condition, found)? else {
        return Ok(None);
    };
    let entries = found.schedule(alloc, place)?;
    let met = nearest(alloc, machine, condition, most, entries, progress)?;
    Ok(Some(met))
}

/// What a search says of a condition that no world on the way may meet, whatever the scheduler does
/// and whatever time passes.
///
/// It looks at no more than `most` worlds, and goes no deeper than `depth` steps that are no ticks,
/// nor than 1,000,000. A search that is not whole was cut off: it came to a world by as many steps as
/// it may take, or there is one world more. Where it has found a world that meets the condition, a
/// second search, of as many worlds, looks for a shorter history.
///
/// `NoMemory`: memory was refused.
pub fn verdict_of<P: Progress>(
    alloc: Global,
    machine: &Machine,
    condition: &Condition<'_>,
    depth: u32,
    most: u32,
    progress: &mut P,
) -> Result<Verdict, NoMemory>
    requires { 0 < most }
    ensures { IfOk result (IsVerdict machine.now condition.now depth most) }
{
    know_times(machine);
    condition.facts();
    let mut watch = Watch::new(alloc, machine, condition)?;
    let explored = explore(alloc, &mut watch, depth.min(DEEPEST), most, progress)?;
    let met = met_among(alloc, machine, condition, most, &explored.found, progress)?;
    Ok(Verdict {
        met,
        worlds: explored.found.len(),
        depth: explored.depth,
        is_whole: explored.is_whole,
    })
}
