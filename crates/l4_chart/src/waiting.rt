//! Which threads wait, behind each step.
ghost use Rattle.std.specs.Prelude.{◌≡◌, IfOk, false, slice_index_or};
ghost use Rattle.l4_chart.specs.Waiting.{all_waits, waits, waits_in};

use crate::columns::Column;
use l4_audit::world::World;
use l4_types::errors::NoMemory;
use l4_types::reports::State;
use std::alloc::Global;

/// Whether a thread in this state waits: for its send, its receive phase or its order.
pub(crate) fn waits_in(state: State) -> bool
    ensures { result ≡ waits_in state }
{
    match state {
        State::Sending | State::Receiving | State::Ordering => true,
        State::Ready | State::Ended | State::Deleted => false,
    }
}

// Whether the thread of a column waits.
fn waits(world: &World<'_>, column: &Column) -> bool
    ensures { result ≡ waits world.now.machine world.now.world column.now }
{
    match world.found(column.id) {
        Some(found) => waits_in(found.state()),
        None => false,
    }
}

/// Which of the threads of these columns wait.
pub(crate) fn all_waits(
    alloc: Global,
    world: &World<'_>,
    columns: &[Column],
) -> Result<Vec<bool>, NoMemory>
    ensures { IfOk result (λ all. all.items ≡
        all_waits world.now.machine world.now.world columns.now) }
{
    let mut all = Vec::with_capacity(alloc, columns.len())?;
    for column in columns {
        all.push(waits(world, column))?;
    }
    Ok(all)
}

/// Whether the thread of the column at this place waits.
pub(crate) fn waits_at(waits: &[bool], place: usize) -> bool
    ensures { result ≡ slice_index_or waits.now place false }
{
    match waits.get(place) {
        Some(waits) => *waits,
        None => false,
    }
}
