//! The search for threads that may get stuck for ever.
ghost use Rattle.std.specs.Prelude.{◌≡◌, ◌⊎◌, ◌<◌, ◌≤◌, IfNone, IfOk, IfSome, false, length, min};
ghost use Rattle.std.specs.Prelude.{true, ℕ};
ghost use Rattle.l4_explore.specs.Search.{seen_at, IsGoneOn as IsSearchedOn};
ghost use Rattle.l4_explore.specs.Tries.{deepest};
ghost use Rattle.l4_worlds.specs.Histories.{IsTimed};
ghost use Rattle.l4_model.specs.World.{World};
ghost use Rattle.l4_forever.specs.Forever.{WaitsForEver};
ghost use Rattle.l4_forever.specs.Inner.Graph.{AreReached, IsWorldAt};
ghost use Rattle.l4_forever.specs.Inner.Graph.{StandsAt};
ghost use Rattle.l4_forever.specs.Moves.{IsNeverStuck};
ghost use Rattle.l4_forever.specs.Inner.Walks.{AreWalked};
ghost use Rattle.l4_model.specs.World.{opening};
ghost use Rattle.l4_stuck.specs.Inner.Going.{IsGraphOf};
ghost use Rattle.l4_stuck.specs.Stuck.{stuck_of, AreStuckThreads, IsCutOff, IsFirst};

use crate::graph::{Graph, graph_of};
use crate::moves::{first_free, moves_of};
use crate::walks::Walks;
use l4_explore::found::Found;
use l4_explore::progress::Progress;
use l4_explore::search::{DEEPEST, Explored, explore};
use l4_outlooks::know_times;
use l4_script::machine::Machine;
use l4_types::errors::NoMemory;
use std::alloc::Global;

/// A thread that may get stuck for ever.
#[derive(Drop)]
pub struct StuckThread {
    /// Its place in the order of declaration.
    pub thread: usize,
    /// The entries of a history after which it is stuck (`l4_all_endings::trace_of`), not always one
    /// of the shortest.
    pub entries: Vec<u32>,
}

/// What a search for stuck threads has found.
#[derive(Drop)]
pub struct FoundThreads {
    /// The threads, in order of declaration.
    pub threads: Vec<StuckThread>,
    /// Whether there are no more.
    pub is_whole: bool,
}

// How many of the found states, from the first on, the search has gone on from.
fn known_of(explored: &Explored) -> usize
    ensures few { result ≤ length explored.now.found }
    ensures known { (i : ℕ) → i < result →
        (length (seen_at explored.now.found i).schedule < explored.now.depth)
        ⊎ (explored.now.is_whole ≡ true) }
    ensures whole { explored.now.is_whole ≡ true → result ≡ length explored.now.found }
{
    if explored.is_whole {
        return explored.found.len();
    }
    for place in 0..explored.found.len() {
        if explored.found.depth(place) >= explored.depth {
            return place;
        }
    }
    explored.found.len()
}

// The first found place at which a thread is stuck for ever.
fn stuck_place(
    alloc: Global,
    machine: &Machine,
    graph: &Graph,
    found: &Found,
    known: usize,
    thread: usize,
) -> Result<Option<usize>, NoMemory>
    requires timed { IsTimed machine.now }
    requires reached { AreReached machine.now found.now }
    requires graph { IsGraphOf machine.now found.now graph.now }
    requires few { known ≤ length found.now }
    requires searched { (i : ℕ) → i < known → IsSearchedOn (AreWalked machine.now) found.now i }
    requires opening { IsFirst machine.now found.now }
    ensures some { IfOk result (λ place. IfSome place (λ i. (i < length found.now) ×
        ((w : World) → IsWorldAt machine.now found.now i w → WaitsForEver machine.now w thread))) }
    ensures none { IfOk result (λ place. IfNone place
        (length found.now ≤ known → IsNeverStuck machine.now thread)) }
{
    let moves = moves_of(alloc, graph, found.len(), known, thread)?;
    Ok(first_free(&moves))
}

/// The threads of a machine that may get stuck for ever, whatever its scheduler does and whatever
/// time passes: where each of them waits in a send phase, or in a receive phase that takes one thread
/// alone, and goes on waiting there whatever happens.
///
/// It looks at no more than `most` worlds, and goes no deeper than `depth` steps that are no ticks,
/// nor than 1,000,000. Where that cuts it off, worlds from which it has not gone on count as worlds
/// where every thread may yet do something. It is cut only there: a history takes as many steps as it
/// may go deep, or there is one world more.
///
/// `NoMemory`: memory was refused.
pub fn stuck_threads<P: Progress>(
    alloc: Global,
    machine: &Machine,
    depth: u32,
    most: u32,
    progress: &mut P,
) -> Result<FoundThreads, NoMemory>
    requires { 0 < most }
    ensures threads { IfOk result (λ r.
        AreStuckThreads machine.now (stuck_of r.threads.items) r.is_whole) }
    ensures cut { IfOk result (λ r.
        r.is_whole ≡ false → IsCutOff machine.now (min depth deepest) most) }
{
    know_times(machine);
    let mut walks = Walks::new(alloc, machine)?;
    let explored = explore(alloc, &mut walks, depth.min(DEEPEST), most, progress)?;
    let graph = graph_of(alloc, machine, &explored.found)?;
    let known = known_of(&explored);
    let mut threads = Vec::new(alloc);
    for thread in 0..machine.threads().len() {
        let place = stuck_place(alloc, machine, &graph, &explored.found, known, thread)?;
        let Some(place) = place else {
            continue;
        };
        let entries = explored.found.schedule(alloc, place)?;
        threads.push(StuckThread { thread, entries })?;
    }
    Ok(FoundThreads {
        threads,
        is_whole: explored.is_whole,
    })
}
