//! What a row shows at each thread, and in front of its line.
ghost use Rattle.std.specs.Prelude.{◌≡◌, ◌+◌};
ghost use Rattle.l4_chart.specs.Cells.{place_in, stroke_of, blank, filled, right_gap, left_gap};
ghost use Rattle.l4_chart.specs.Cells.{is_between, arrow_gap, start_of, crossed_line, arrow_line};
ghost use Rattle.l4_chart.specs.Cells.{arrow_cell, is_at, cell_of};

use crate::columns::Column;
use crate::glyphs::Glyphs;
use crate::marks::{Kind, Mark};
use l4_types::ids::GlobalId;

/// What a row shows, by the places of its threads among the columns, counted from 0. A place is
/// None if its thread is not shown.
#[derive(Clone, Copy, Debug, PartialEq, Eq)]
pub enum Stroke {
    /// A step of one thread.
    Dot {
        /// Where the thread stands.
        at: Option<usize>,
        /// What the step is.
        kind: Kind,
    },
    /// A delivery.
    Shaft {
        /// Where the sender stands.
        from: Option<usize>,
        /// Where the receiver stands.
        to: Option<usize>,
    },
    /// The clock of a processor goes on.
    Ticks {
        /// The processor, 0 to 15.
        cpu: u8,
        /// What its clock has become, in ticks of a microsecond.
        clock: u64,
    },
}

/// What stands in front of the line of a thread.
#[derive(Clone, Copy, Debug, PartialEq, Eq)]
pub struct Gap {
    /// The first character.
    pub first: char,
    /// Each character behind it, but the last.
    pub between: char,
    /// The last character, next to the line.
    pub last: char,
}

/// What stands at a thread.
#[derive(Clone, Copy, Debug, PartialEq, Eq)]
pub struct Cell {
    /// What stands in front of its line.
    pub gap: Gap,
    /// What stands at its line.
    pub line: char,
}

const BLANK: Gap = Gap {
    first: ' ',
    between: ' ',
    last: ' ',
};

// The place of a thread among the columns.
fn place_in(columns: &[Column], thread: GlobalId) -> Option<usize>
    ensures { result ≡ place_in columns.now thread }
{
    columns.iter().position(|column| column.id == thread)
}

/// What a mark shows, by the places of its threads.
pub fn stroke_of(columns: &[Column], mark: &Mark) -> Stroke
    ensures { result ≡ stroke_of columns.now mark.now }
{
    match *mark {
        Mark::Point { thread, kind } => Stroke::Dot {
            at: place_in(columns, thread),
            kind,
        },
        Mark::Arrow { sender, receiver } => Stroke::Shaft {
            from: place_in(columns, sender),
            to: place_in(columns, receiver),
        },
        Mark::Clock { cpu, clock } => Stroke::Ticks { cpu, clock },
    }
}

fn is_between(from: usize, to: usize, place: usize) -> bool
    ensures { result ≡ is_between from to place }
{
    from < place && place <= to
}

fn right_gap(glyphs: &Glyphs, ends: bool) -> Gap
    ensures { result ≡ right_gap glyphs.now ends }
{
    Gap {
        first: glyphs.shaft,
        between: glyphs.shaft,
        last: if ends {
            glyphs.right_head
        } else {
            glyphs.shaft
        },
    }
}

fn left_gap(glyphs: &Glyphs, ends: bool) -> Gap
    ensures { result ≡ left_gap glyphs.now ends }
{
    Gap {
        first: if ends { glyphs.left_head } else { glyphs.shaft },
        between: glyphs.shaft,
        last: glyphs.shaft,
    }
}

// What stands in front of the line at a place, if an arrow goes from one line to another.
fn arrow_gap(glyphs: &Glyphs, from: usize, to: usize, place: usize) -> Gap
    ensures { result ≡ arrow_gap glyphs.now from to place }
{
    if is_between(from, to, place) {
        right_gap(glyphs, place == to)
    } else if is_between(to, from, place) {
        left_gap(glyphs, place == to + 1)
    } else {
        BLANK
    }
}

fn start_of(glyphs: &Glyphs, from: usize, to: usize) -> char
    ensures { result ≡ start_of glyphs.now from to }
{
    if to < from {
        glyphs.left_start
    } else {
        glyphs.right_start
    }
}

// The character at the line of a place that is not the sender's.
fn crossed_line(glyphs: &Glyphs, from: usize, to: usize, place: usize) -> char
    ensures { result ≡ crossed_line glyphs.now from to place }
{
    if place == to {
        glyphs.line
    } else if is_between(from, to, place) || is_between(to, from, place) {
        glyphs.cross
    } else {
        glyphs.line
    }
}

// The character at the line of a place.
fn arrow_line(glyphs: &Glyphs, from: usize, to: usize, place: usize) -> char
    ensures { result ≡ arrow_line glyphs.now from to place }
{
    if place == from {
        start_of(glyphs, from, to)
    } else {
        crossed_line(glyphs, from, to, place)
    }
}

// The cell of a place at which nothing but a line may stand.
fn lined(line: char) -> Cell
    ensures { result ≡ record { gap = blank; line = line } }
{
    Cell { gap: BLANK, line }
}

// The cell of the only end of an arrow that is shown.
fn headed(head: char, line: char) -> Cell
    ensures { result ≡ record { gap = record blank { last = head }; line = line } }
{
    Cell {
        gap: Gap {
            last: head,
            ..BLANK
        },
        line,
    }
}

// The cell of an arrow at a place.
fn arrow_cell(glyphs: &Glyphs, from: Option<usize>, to: Option<usize>, place: usize) -> Cell
    ensures { result ≡ arrow_cell glyphs.now from to place }
{
    match (from, to) {
        (Some(from), Some(to)) => Cell {
            gap: arrow_gap(glyphs, from, to, place),
            line: arrow_line(glyphs, from, to, place),
        },
        (None, Some(to)) if place == to => headed(glyphs.right_head, glyphs.line),
        (Some(from), None) if place == from => headed(glyphs.left_head, glyphs.left_start),
        _ => lined(glyphs.line),
    }
}

/// The cell at a place of a row.
pub fn cell_of(glyphs: &Glyphs, stroke: &Stroke, place: usize, column: &Column) -> Cell
    ensures { result ≡ cell_of glyphs.now stroke.now place column.now }
{
    match *stroke {
        Stroke::Dot { at, kind } if at == Some(place) => lined(glyphs.of_kind(kind)),
        Stroke::Shaft { from, to } => arrow_cell(glyphs, from, to, place),
        Stroke::Ticks { cpu, .. } if column.cpu == cpu => lined(glyphs.clock),
        Stroke::Dot { .. } | Stroke::Ticks { .. } => lined(glyphs.line),
    }
}
