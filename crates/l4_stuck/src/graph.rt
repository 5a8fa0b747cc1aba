//! What a search has found, as a graph: in which phases the threads wait, and what leads where.
ghost use Rattle.std.specs.Prelude.{◌≡◌, ◌+◌, ◌^◌, ◌<◌, IfOk, IsSome, OnOk, Some, ℕ, length};
ghost use Rattle.l4_model.specs.World.{World};
ghost use Rattle.l4_worlds.specs.Histories.{IsTimed};
ghost use Rattle.l4_futures.specs.Choices.{after_entry};
ghost use Rattle.l4_forever.specs.Inner.Graph.{AreReached};
ghost use Rattle.l4_forever.specs.Inner.Rows.{wait_by};
ghost use Rattle.l4_stuck.specs.Inner.Going.{rows_of, AreShort, IsAdded, IsGraphOf, IsLeft};
ghost use Rattle.l4_stuck.specs.Inner.Going.{IsOutlookAt};

use l4_all_endings::{Way, choice_by};
use l4_explore::found::Found;
use l4_forever::{Edge, Wait};
use l4_outlooks::{Outlook, know_times};
use l4_script::machine::Machine;
use l4_types::errors::NoMemory;
use std::alloc::Global;

/// Found worlds, by their places: in which phase each thread waits there, and the steps that lead
/// from one to another.
#[derive(Drop)]
pub(crate) struct Graph {
    /// For each place the phases of all threads, in order of declaration.
    pub waits: Vec<Vec<Wait>>,
    pub edges: Vec<Edge>,
}

impl Graph {
    /// In which phase a thread waits at a place.
    pub(crate) fn wait(&self, place: usize, thread: usize) -> Wait
        ensures { result ≡ wait_by (rows_of self.now) place thread }
    {
        let Some(row) = self.waits.get(place) else {
            return Wait::Neither;
        };
        match row.get(thread) {
            Some(wait) => *wait,
            None => Wait::Neither,
        }
    }
}

// Adds the edge of an entry, if the state behind it was found.
fn add_edge(
    alloc: Global,
    outlook: &Outlook<'_>,
    found: &Found,
    place: usize,
    entry: u32,
    edges: &mut Vec<Edge>,
) -> Result<Option<usize>, NoMemory>
    requires timed { IsTimed outlook.now.machine }
    requires reached { AreReached outlook.now.machine found.now }
    requires at { IsOutlookAt outlook.now.machine found.now place outlook.now }
    requires possible { IsSome (after_entry outlook.now.machine outlook.now.world entry) }
    requires few { length found.now < 2 ^ 32 }
    ensures { IfOk result (λ to. (v : World) →
        after_entry outlook.now.machine outlook.now.world entry ≡ Some v →
        IsAdded outlook.now.machine found.now place outlook.now.world v edges.old.items
        edges.new.items to) }
{
    let choice = choice_by(alloc, outlook.try_clone(alloc)?, entry)?;
    let Some(to) = found.place_of(&choice.reached.code) else {
        return Ok(None);
    };
    edges.push(Edge {
        from: place as u32,
        to: to as u32,
    })?;
    Ok(Some(to))
}

// Adds all edges from a place.
fn add_edges(
    alloc: Global,
    outlook: &Outlook<'_>,
    found: &Found,
    place: usize,
    edges: &mut Vec<Edge>,
) -> Result<(), NoMemory>
    requires timed { IsTimed outlook.now.machine }
    requires reached { AreReached outlook.now.machine found.now }
    requires at { IsOutlookAt outlook.now.machine found.now place outlook.now }
    requires few { length found.now < 2 ^ 32 }
    ensures { OnOk result (IsLeft outlook.now.machine found.now place outlook.now.world
        edges.old.items edges.new.items) }
{
    let possible = outlook.possible(alloc)?;
    for entry in &possible {
        add_edge(alloc, outlook, found, place, *entry, edges)?;
    }
    Ok(())
}

/// The graph of what a search has found.
pub(crate) fn graph_of(alloc: Global, machine: &Machine, found: &Found) -> Result<Graph, NoMemory>
    requires reached { AreReached machine.now found.now }
    requires short { AreShort found.now }
    requires few { length found.now < 2 ^ 32 }
    ensures { IfOk result (IsGraphOf machine.now found.now) }
{
    know_times(machine);
    let mut waits = Vec::new(alloc);
    let mut edges = Vec::new(alloc);
    let mut way = Way::new(alloc, machine)?;
    for place in 0..found.len() {
        let entries = found.schedule(alloc, place)?;
        let outlook = way.outlook(alloc, &entries)?;
        waits.push(outlook.waits(alloc)?)?;
        add_edges(alloc, &outlook, found, place, &mut edges)?;
    }
    Ok(Graph { waits, edges })
}
