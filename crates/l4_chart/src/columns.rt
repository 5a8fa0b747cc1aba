//! The columns of a chart.
ghost use Rattle.std.specs.Prelude.{◌≡◌, ◌++◌, IfOk, OnOk, map};
ghost use Rattle.l4_chart.specs.Charts.{column_on, columns_on, columns_of};

use crate::window::Window;
use l4_script::machine::{Declaration, Machine};
use l4_types::errors::NoMemory;
use l4_types::ids::GlobalId;
use std::alloc::Global;

/// A thread under its processor.
#[derive(Clone, Copy, Debug, PartialEq, Eq)]
pub struct Column {
    /// The thread.
    pub id: GlobalId,
    /// Its processor, 0 to 15.
    pub cpu: u8,
}

// The column of a thread, if the thread is on this processor and is shown.
fn column_on(declared: &Declaration, window: &Window<'_>, cpu: u8) -> Option<Column>
    ensures { result ≡ column_on window.now.threads cpu declared.now }
{
    let id = declared.id();
    let is_shown = declared.cpu() == cpu && window.is_chosen(id);
    is_shown.then_some(Column { id, cpu })
}

// Appends the columns of a processor.
fn push_columns(
    machine: &Machine,
    window: &Window<'_>,
    cpu: u8,
    columns: &mut Vec<Column>,
) -> Result<(), NoMemory>
    ensures { OnOk result (columns.new.items ≡ columns.old.items ++
        columns_on machine.now window.now.threads cpu) }
{
    for declared in machine.threads() {
        if let Some(column) = column_on(declared, window, cpu) {
            columns.push(column)?;
        }
    }
    Ok(())
}

/// The columns of a chart: the threads that are shown, under their processors.
pub fn columns_of(
    alloc: Global,
    machine: &Machine,
    window: &Window<'_>,
) -> Result<Vec<Column>, NoMemory>
    ensures { IfOk result (λ columns. columns.items ≡ columns_of machine.now window.now.threads) }
{
    let mut columns = Vec::new(alloc);
    for cpu in 0..machine.cpus() {
        push_columns(machine, window, cpu, &mut columns)?;
    }
    Ok(columns)
}
