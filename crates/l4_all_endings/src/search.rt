//! The search for all endings.
ghost use Rattle.std.specs.Prelude.{◌≡◌, ◌++◌, ◌<◌, min, Bool, IfNone, IfOk, IfSome, OnErr, OnOk};
ghost use Rattle.std.specs.Prelude.{false, length, map};
ghost use Rattle.l4_explore.specs.Search.{seen_at, Seen};
ghost use Rattle.l4_explore.specs.Tries.{deepest};
ghost use Rattle.l4_futures.specs.Endings.{AreAllEndings, HasLooked};
ghost use Rattle.l4_futures.specs.Inner.Search.{ends_of};
ghost use Rattle.l4_futures.specs.Traces.{trace_along};
ghost use Rattle.l4_all_endings.specs.Told.{AreTold, HaveBegun};
ghost use Rattle.l4_all_endings.specs.Tried.{schedules_from, AreLed, LeadsToWorld};

use crate::tried::Worlds;
use l4_explore::found::Found;
use l4_explore::listener::Listener;
use l4_explore::progress::Progress;
use l4_explore::search::{DEEPEST, explore, explore_telling};
use l4_outlooks::know_times;
use l4_script::machine::Machine;
use l4_types::errors::NoMemory;
use std::alloc::Global;

/// What a search of all worlds has found.
#[derive(Drop)]
pub struct FoundEndings {
    /// Each ending by the entries of a shortest history that comes to it (`trace_of`). The shorter
    /// ones come first.
    pub endings: Vec<Vec<u32>>,
    /// The number of worlds looked at, no two of them as good as each other.
    pub worlds: usize,
    /// Each ending to which a history of at most this many steps but ticks comes was found. Where
    /// the search is whole, the longest history that it needed is as long.
    pub depth: usize,
    /// Whether longer histories come to no other endings.
    pub is_whole: bool,
}

/// The endings of a machine, whatever its scheduler does and whatever time passes: all to which
/// histories of at most `depth` steps come, ticks not counted. Endings that are as good as each
/// other are listed once.
///
/// It looks at no more than `most` worlds. No search goes deeper than 1,000,000 steps. A search that
/// is not whole was cut off: it came to a world by as many steps as it may take, or there is one
/// world more.
///
/// `NoMemory`: memory was refused.
pub fn all_endings<P: Progress>(
    alloc: Global,
    machine: &Machine,
    depth: u32,
    most: u32,
    progress: &mut P,
) -> Result<FoundEndings, NoMemory>
    requires { 0 < most }
    ensures all { IfOk result (λ r. AreAllEndings machine.now
        (map (trace_along machine.now) (schedules_from r.endings.items)) r.depth r.is_whole) }
    ensures looked { IfOk result (λ r.
        HasLooked machine.now (min depth deepest) most r.worlds r.depth r.is_whole) }
    ensures led { IfOk result (λ r. AreLed machine.now (schedules_from r.endings.items)) }
{
    know_times(machine);
    let mut worlds = Worlds::new(alloc, machine)?;
    let explored = explore(alloc, &mut worlds, depth.min(DEEPEST), most, progress)?;
    Ok(FoundEndings {
        endings: ends(alloc, &explored.found)?,
        worlds: explored.found.len(),
        depth: explored.depth,
        is_whole: explored.is_whole,
    })
}

/// What a search of all worlds says of itself.
#[derive(Clone, Copy, Debug, PartialEq, Eq)]
pub struct Looked {
    /// The number of worlds looked at, no two of them as good as each other.
    pub worlds: usize,
    /// As of `FoundEndings`.
    pub depth: usize,
    /// Whether longer histories come to no other endings.
    pub is_whole: bool,
}

/// The same search, which keeps no ending, but tells `listener` of each as soon as it is found, in
/// the order of `all_endings`. The entries that lead there are the schedule of the state that the
/// listener is told of. None if the listener wanted to hear of no more.
///
/// `NoMemory`: memory was refused, to the listener perhaps. It has been told of the first endings.
pub fn all_endings_telling<P: Progress, L: Listener>(
    alloc: Global,
    machine: &Machine,
    depth: u32,
    most: u32,
    progress: &mut P,
    listener: &mut L,
) -> Result<Option<Looked>, NoMemory>
    requires some { 0 < most }
    requires may { (s : Seen) → LeadsToWorld machine.now s.schedule → L.may_hear listener.old s }
    ensures all { IfOk result (λ looked. IfSome looked (λ r.
        AreTold machine.now (L.hears listener.old listener.new) r.depth r.is_whole)) }
    ensures looked { IfOk result (λ looked. IfSome looked (λ r.
        HasLooked machine.now (min depth deepest) most r.worlds r.depth r.is_whole)) }
    ensures stopped { IfOk result (λ looked. IfNone looked (
        HaveBegun machine.now (L.hears listener.old listener.new) false)) }
    ensures refused { OnErr result ((more : Bool) ×
        HaveBegun machine.now (L.hears listener.old listener.new) more) }
{
    know_times(machine);
    let mut worlds = Worlds::new(alloc, machine)?;
    let depth = depth.min(DEEPEST);
    let Some(search) = explore_telling(alloc, &mut worlds, depth, most, progress, listener)? else {
        return Ok(None);
    };
    Ok(Some(Looked {
        worlds: search.found.len(),
        depth: search.depth,
        is_whole: search.is_whole,
    }))
}

// The entries to the worlds in which nothing can go on.
fn ends(alloc: Global, found: &Found) -> Result<Vec<Vec<u32>>, NoMemory>
    ensures { IfOk result (λ ends. schedules_from ends.items ≡ ends_of found.now) }
{
    let mut ends = Vec::new(alloc);
    for place in 0..found.len() {
        if found.is_end(place) {
            ends.push(found.schedule(alloc, place)?)?;
        }
    }
    Ok(ends)
}
