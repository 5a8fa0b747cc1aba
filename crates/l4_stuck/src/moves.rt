//! From which places a thread may yet do something.
ghost use Rattle.std.specs.Prelude.{◌≡◌, ◌<◌, ◌≤◌, IfNone, IfOk, IfSome, false, length, true, ℕ};
ghost use Rattle.std.specs.Prelude.{List};
ghost use Rattle.l4_model.specs.Machine.{Machine};
ghost use Rattle.l4_worlds.specs.Histories.{IsTimed};
ghost use Rattle.l4_explore.specs.Search.{Seen};
ghost use Rattle.l4_forever.specs.Inner.Graph.{AreReached};
ghost use Rattle.l4_forever.specs.Moves.{moves_at, AreJustified};
ghost use Rattle.l4_forever.specs.Inner.Rows.{wait_by, AreSpread, AreStarted};
ghost use Rattle.l4_forever.specs.Waits.{is_waiting};
ghost use Rattle.l4_stuck.specs.Inner.Going.{rows_of, unmarked, IsGraphOf, IsMarkedBy, IsSpread};

use crate::graph::Graph;
use l4_forever::{Edge, Wait};
use l4_types::errors::NoMemory;
use std::alloc::Global;

fn is_waiting(wait: Wait) -> bool
    ensures { result ≡ is_waiting wait }
{
    match wait {
        Wait::Send | Wait::Receive => true,
        Wait::Neither => false,
    }
}

// Whether a place is marked. Past the end all are.
fn moves_at(moves: &[bool], place: usize) -> bool
    ensures { result ≡ moves_at moves.now place }
{
    match moves.get(place) {
        Some(moves) => *moves,
        None => true,
    }
}

// Marks each place where a thread does not wait, and each from which the search has not gone on:
// those from `known` on.
fn started(
    alloc: Global,
    graph: &Graph,
    places: usize,
    known: usize,
    thread: usize,
) -> Result<Vec<bool>, NoMemory>
    requires { known ≤ places }
    ensures { IfOk result (λ moves. AreStarted (rows_of graph.now) known thread moves.items) }
{
    let mut moves = Vec::new(alloc);
    for place in 0..places {
        moves.push(place >= known || !is_waiting(graph.wait(place, thread)))?;
    }
    Ok(moves)
}

// Marks the place that an edge comes from, if it leads on: to a marked place, or to one where the
// thread does not wait as there. Returns whether that place was not marked before.
fn mark(graph: &Graph, thread: usize, edge: &Edge, moves: &mut Vec<bool>) -> bool
    ensures marked { result ≡ true → IsMarkedBy (rows_of graph.now) thread edge.now moves.old.items
        moves.new.items }
    ensures kept { result ≡ false → (moves.new.items ≡ moves.old.items)
        × IsSpread (rows_of graph.now) thread moves.old.items edge.now }
{
    let from = edge.from as usize;
    let to = edge.to as usize;
    if moves_at(moves, from) {
        return false;
    }
    if !moves_at(moves, to) && graph.wait(from, thread) == graph.wait(to, thread) {
        return false;
    }
    moves[from] = true;
    true
}

// Goes back along each edge once, and returns whether a place was marked.
fn spread(graph: &Graph, thread: usize, moves: &mut Vec<bool>) -> bool
    ensures fewer { result ≡ true → unmarked moves.new.items < unmarked moves.old.items }
    ensures spread { result ≡ false →
        AreSpread (rows_of graph.now) graph.now.edges.items thread moves.new.items }
    ensures free { (place : ℕ) → moves_at moves.new.items place ≡ false →
        moves_at moves.old.items place ≡ false }
    ensures justified { (m : Machine) (found : List Seen) → IsTimed m → AreReached m found →
        IsGraphOf m found graph.now → AreJustified m found thread moves.old.items →
        AreJustified m found thread moves.new.items }
{
    let mut has_spread = false;
    let mut left = graph.edges.len();
    while left > 0 {
        left -= 1;
        if mark(graph, thread, &graph.edges[left], moves) {
            has_spread = true;
        }
    }
    has_spread
}

/// For each place whether a thread may yet do something from there. Where the search has not gone
/// on, from `known` on, it may.
pub(crate) fn moves_of(
    alloc: Global,
    graph: &Graph,
    places: usize,
    known: usize,
    thread: usize,
) -> Result<Vec<bool>, NoMemory>
    requires { known ≤ places }
    ensures free { IfOk result (λ moves. (place : ℕ) → moves_at moves.items place ≡ false →
        (place < known) × (is_waiting (wait_by (rows_of graph.now) place thread) ≡ true)) }
    ensures spread { IfOk result (λ moves.
        AreSpread (rows_of graph.now) graph.now.edges.items thread moves.items) }
    ensures justified { IfOk result (λ moves. (m : Machine) (found : List Seen) → IsTimed m →
        AreReached m found → IsGraphOf m found graph.now → length found ≤ known →
        AreJustified m found thread moves.items) }
{
    let mut moves = started(alloc, graph, places, known, thread)?;
    while spread(graph, thread, &mut moves) {}
    Ok(moves)
}

/// The first place that is not marked.
pub(crate) fn first_free(moves: &[bool]) -> Option<usize>
    ensures some { IfSome result (λ place. moves_at moves.now place ≡ false) }
    ensures none { IfNone result ((place : ℕ) → moves_at moves.now place ≡ true) }
{
    for place in 0..moves.len() {
        if !moves[place] {
            return Some(place);
        }
    }
    None
}
