//! How a chart is laid out as text.
ghost use Rattle.std.specs.Prelude.{◌≡◌, ◌≤◌, length, decimal, map};
ghost use Rattle.l4_chart.specs.Charts.{row_of};
ghost use Rattle.l4_chart.specs.Layouts.{widest, last_number, cell_width, layout_of};

use crate::chart::{Chart, Row};
use crate::columns::Column;
use crate::ink::{number_width, thread_width};

/// How many columns of a terminal each part of a row takes.
#[derive(Clone, Copy, Debug, PartialEq, Eq)]
pub struct Layout {
    /// The number of the row.
    pub number: usize,
    /// A thread: its line, and what stands in front of it.
    pub cell: usize,
    /// The line of the step, at most.
    pub line: usize,
}

// How many columns the word above the numbers takes.
const NUMBER_COLUMNS: usize = 4;

// How many columns are kept for the lines of steps before threads take more than they need. Below
// it, how many a thread then takes.
const LINE_COLUMNS: usize = 34;

const CELL_COLUMNS: usize = 10;

/// How many columns of a terminal the longest id of a thread takes.
pub(crate) fn widest(columns: &[Column]) -> usize
    ensures value { result ≡ widest columns.now }
    ensures few { result ≤ 81 }
{
    let mut widest = 0;
    for column in columns {
        widest = widest.max(thread_width(column.id));
    }
    widest
}

fn last_number(rows: &[Row<'_, '_>]) -> usize
    ensures { result ≡ last_number (map row_of rows.now) }
{
    match rows.last() {
        Some(row) => row.number,
        None => 0,
    }
}

// How many columns each of `count` threads takes, if threads and the lines of steps have this room
// together.
fn cell_width(room: usize, count: usize, widest: usize) -> usize
    requires { widest ≤ 81 }
    ensures { result ≡ cell_width room count widest }
{
    let spare = room.saturating_sub(LINE_COLUMNS) / count.max(1);
    (widest + 2).max(spare.min(CELL_COLUMNS))
}

/// The layout of a chart on a terminal of `width` columns. If the threads do not fit, rows are
/// longer.
pub fn layout_of(width: usize, chart: &Chart<'_, '_>) -> Layout
    ensures { result ≡ layout_of width chart.now.columns.items (map row_of chart.now.rows.items) }
{
    let last = last_number(chart.rows.as_slice());
    let number = number_width(last as u64).max(NUMBER_COLUMNS);
    let room = width.saturating_sub(number);
    let count = chart.columns.len();
    let cell = cell_width(room, count, widest(chart.columns.as_slice()));
    Layout {
        number,
        cell,
        line: room
            .saturating_sub(cell.saturating_mul(count))
            .saturating_sub(2),
    }
}
