//! Where the parts of a picture stand, in whole pixels.
ghost use Rattle.std.specs.Prelude.{◌≡◌, ◌≤◌};
ghost use Rattle.l4_chart.specs.Charts.{drawn_of};
ghost use Rattle.l4_chart.specs.Scenes.{column_step, scene_in, at, column_x, row_y, end_x};
ghost use Rattle.l4_chart.specs.Scenes.{height_of, lines_in, right_edge, width_of};

use crate::chart::Chart;
use crate::layout::widest;

/// The left edge of the first thread.
pub(crate) const LEFT: u64 = 64;

/// The least distance of two threads, and what an id takes of it.
const LEAST_STEP: u64 = 72;

const CHARACTER: u64 = 8;

/// The height of the heading.
pub(crate) const HEADING: u64 = 56;

/// The height of a row.
pub(crate) const ROW: u64 = 24;

/// Where the end of an arrow stands whose thread is not shown.
const EDGE: u64 = 52;

/// How wide the lines of steps are.
const LINES: u64 = 480;

/// Where the parts of a picture stand. What does not fit into 64 bits stands at the last pixel.
#[derive(Clone, Copy, Debug, PartialEq, Eq)]
pub struct Scene {
    /// From the line of one thread to that of the next.
    pub step: u64,
    /// How many threads there are.
    pub columns: u64,
    /// How many rows there are, with those behind the last step.
    pub rows: u64,
}

// The pixel that is `count` steps behind a start.
fn at(start: u64, step: u64, count: u64) -> u64
    ensures { result ≡ at start step count }
{
    step.saturating_mul(count).saturating_add(start)
}

fn column_step(widest: u64) -> u64
    requires { widest ≤ 81 }
    ensures { result ≡ column_step widest }
{
    (widest * CHARACTER + 2 * CHARACTER).max(LEAST_STEP)
}

// How many lines a text has.
fn lines_in(text: &[u8]) -> usize
    ensures { result ≡ lines_in text.now }
{
    text.iter().filter(|byte| **byte == b'\n').count()
}

impl Scene {
    /// The picture of a chart.
    #[tactic(auto, using(crate::proofs::Pictured::as_many_rows))]
    pub fn of(chart: &Chart<'_, '_>) -> Scene
        ensures { result ≡ scene_in (drawn_of chart.now) }
    {
        Scene {
            step: column_step(widest(chart.columns.as_slice()) as u64),
            columns: chart.columns.len() as u64,
            rows: (chart.rows.len() as u64)
                .saturating_add(chart.standings.len() as u64)
                .saturating_add(lines_in(chart.circles.as_slice()) as u64),
        }
    }

    /// The line of the thread at a place, counted from 0.
    pub fn column_x(&self, place: usize) -> u64
        ensures { result ≡ column_x self.now place }
    {
        at(LEFT.saturating_add(self.step / 2), self.step, place as u64)
    }

    /// The middle of a row, counted from 0.
    pub fn row_y(&self, row: usize) -> u64
        ensures { result ≡ row_y row }
    {
        at(HEADING + ROW / 2, ROW, row as u64)
    }

    /// Where an arrow begins or ends: at the line of a thread, or at the edge if that thread is not
    /// shown.
    pub fn end_x(&self, place: Option<usize>) -> u64
        ensures { result ≡ end_x self.now place }
    {
        match place {
            Some(place) => self.column_x(place),
            None => EDGE,
        }
    }

    /// The right edge of the last thread.
    pub fn right(&self) -> u64
        ensures { result ≡ right_edge self.now }
    {
        at(LEFT, self.step, self.columns)
    }

    /// The width of the picture.
    pub fn width(&self) -> u64
        ensures { result ≡ width_of self.now }
    {
        self.right().saturating_add(LINES)
    }

    /// The height of the picture.
    pub fn height(&self) -> u64
        ensures { result ≡ height_of self.now }
    {
        at(HEADING, ROW, self.rows)
    }
}
