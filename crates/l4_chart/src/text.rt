//! A chart as text.
ghost use Rattle.std.specs.Prelude.{◌≡◌, ◌<◌, ◌++◌, IfOk, OnOk, None, map, flat_map};
ghost use Rattle.std.specs.Char.{encode_utf8};
ghost use Rattle.std.specs.List.{enumerate_from};
ghost use Rattle.l4_chart.specs.Charts.{drawn_of, row_of};
ghost use Rattle.l4_chart.specs.Texts.{cell_text, cells_text, cut, line_text, row_text, head_text};
ghost use Rattle.l4_chart.specs.Texts.{heads_text, hint_text, ids_text, heading, standing_cells};
ghost use Rattle.l4_chart.specs.Texts.{standing_text, standing_waits, text_of};

use crate::cells::{Cell, Stroke, cell_of, stroke_of};
use crate::chart::{Chart, Row};
use crate::columns::Column;
use crate::glyphs::Glyphs;
use crate::ink::{
    push_char, push_chars, push_right_number, push_right_text, push_right_thread, push_spaces,
    push_text,
};
use crate::layout::{Layout, layout_of};
use crate::standings::Standing;
use crate::waiting::{waits_at, waits_in};
use crate::words::words_of;
use l4_types::errors::NoMemory;
use std::alloc::Global;

fn push_cell(out: &mut Vec<u8>, width: usize, cell: &Cell) -> Result<(), NoMemory>
    ensures { OnOk result (out.new.items ≡ out.old.items ++ cell_text width cell.now) }
{
    push_char(out, cell.gap.first)?;
    push_chars(out, cell.gap.between, width.saturating_sub(3))?;
    push_char(out, cell.gap.last)?;
    push_char(out, cell.line)
}

fn push_cells(
    out: &mut Vec<u8>,
    glyphs: &Glyphs,
    width: usize,
    stroke: &Stroke,
    waits: &[bool],
    columns: &[Column],
) -> Result<(), NoMemory>
    ensures { OnOk result (out.new.items ≡ out.old.items ++
        cells_text glyphs.now width stroke.now waits.now (enumerate_from 0 columns.now)) }
{
    for (place, column) in columns.iter().enumerate() {
        let own = glyphs.for_line(waits_at(waits, place));
        push_cell(out, width, &cell_of(&own, stroke, place, column))?;
    }
    Ok(())
}

// Appends a line, cut off if there is less room.
fn push_cut(out: &mut Vec<u8>, glyphs: &Glyphs, room: usize, line: &[u8]) -> Result<(), NoMemory>
    requires { 0 < room }
    ensures { OnOk result (out.new.items ≡ out.old.items ++ cut glyphs.now room line.now) }
{
    if line.len() <= room {
        out.extend_from_slice(line)?;
        return Ok(());
    }
    out.extend_from_slice(&line[..room - 1])?;
    push_char(out, glyphs.cut)
}

fn push_line(
    out: &mut Vec<u8>,
    glyphs: &Glyphs,
    room: usize,
    row: &Row<'_, '_>,
) -> Result<(), NoMemory>
    ensures { OnOk result (out.new.items ≡ out.old.items ++
        line_text glyphs.now room (row_of row.now)) }
{
    if room == 0 {
        return Ok(());
    }
    let line = words_of(*out.allocator(), row)?;
    push_text(out, "  ")?;
    push_cut(out, glyphs, room, line.as_slice())
}

fn push_row(
    out: &mut Vec<u8>,
    glyphs: &Glyphs,
    layout: &Layout,
    columns: &[Column],
    row: &Row<'_, '_>,
) -> Result<(), NoMemory>
    ensures { OnOk result (out.new.items ≡ out.old.items ++
        row_text glyphs.now layout.now columns.now (row_of row.now)) }
{
    let stroke = stroke_of(columns, &row.mark());
    push_right_number(out, layout.number, row.number as u64)?;
    push_cells(
        out,
        glyphs,
        layout.cell,
        &stroke,
        row.waits.as_slice(),
        columns,
    )?;
    push_line(out, glyphs, layout.line, row)?;
    out.extend_from_slice(row.changes.as_slice())?;
    push_text(out, "\n")
}

fn push_rows(
    out: &mut Vec<u8>,
    glyphs: &Glyphs,
    layout: &Layout,
    chart: &Chart<'_, '_>,
) -> Result<(), NoMemory>
    ensures { OnOk result (out.new.items ≡ out.old.items ++
        flat_map (row_text glyphs.now layout.now chart.now.columns.items)
        (map row_of chart.now.rows.items)) }
{
    for row in &chart.rows {
        push_row(out, glyphs, layout, chart.columns.as_slice(), row)?;
    }
    Ok(())
}

// Which threads wait behind the last row.
fn all_waiting(alloc: Global, standings: &[Standing<'_>]) -> Result<Vec<bool>, NoMemory>
    ensures { IfOk result (λ waits. waits.items ≡ map standing_waits standings.now) }
{
    let mut waits = Vec::with_capacity(alloc, standings.len())?;
    for standing in standings {
        waits.push(waits_in(standing.state))?;
    }
    Ok(waits)
}

// Appends the lines of threads, with the mark of what one of them is in, where there is room for words
// of rows.
fn push_standing_cells(
    out: &mut Vec<u8>,
    glyphs: &Glyphs,
    layout: &Layout,
    columns: &[Column],
    waits: &[bool],
    standing: &Standing<'_>,
) -> Result<(), NoMemory>
    ensures { OnOk result (out.new.items ≡ out.old.items ++
        standing_cells glyphs.now layout.now columns.now waits.now standing.now) }
{
    if layout.line == 0 {
        return Ok(());
    }
    let stroke = stroke_of(columns, &standing.mark());
    push_spaces(out, layout.number)?;
    push_cells(out, &glyphs.opened(), layout.cell, &stroke, waits, columns)
}

// Appends what a thread is in.
fn push_standing(
    out: &mut Vec<u8>,
    glyphs: &Glyphs,
    layout: &Layout,
    columns: &[Column],
    waits: &[bool],
    standing: &Standing<'_>,
) -> Result<(), NoMemory>
    ensures { OnOk result (out.new.items ≡ out.old.items ++
        standing_text glyphs.now layout.now columns.now waits.now standing.now) }
{
    push_standing_cells(out, glyphs, layout, columns, waits, standing)?;
    push_text(out, "  ")?;
    standing.push_words(out)?;
    push_text(out, "\n")
}

fn push_standings(
    out: &mut Vec<u8>,
    glyphs: &Glyphs,
    layout: &Layout,
    chart: &Chart<'_, '_>,
) -> Result<(), NoMemory>
    ensures { OnOk result (out.new.items ≡ out.old.items ++
        flat_map (standing_text glyphs.now layout.now chart.now.columns.items
        (map standing_waits chart.now.standings.items)) chart.now.standings.items) }
{
    let waits = all_waiting(*out.allocator(), chart.standings.as_slice())?;
    let columns = chart.columns.as_slice();
    for standing in &chart.standings {
        push_standing(out, glyphs, layout, columns, waits.as_slice(), standing)?;
    }
    Ok(())
}

// Appends what stands above a thread of processor `cpu`. The thread before it is on processor
// `before`.
fn push_head(
    out: &mut Vec<u8>,
    glyphs: &Glyphs,
    width: usize,
    before: Option<u8>,
    cpu: u8,
) -> Result<(), NoMemory>
    ensures { OnOk result (out.new.items ≡ out.old.items ++ head_text glyphs.now width before cpu) }
{
    if before == Some(cpu) {
        push_text(out, " ")?;
        return push_chars(out, glyphs.bracket, width.saturating_sub(1));
    }
    push_right_number(out, width, u64::from(cpu))
}

fn push_heads(
    out: &mut Vec<u8>,
    glyphs: &Glyphs,
    width: usize,
    columns: &[Column],
) -> Result<(), NoMemory>
    ensures { OnOk result (out.new.items ≡ out.old.items ++
        heads_text glyphs.now width None columns.now) }
{
    let mut before = None;
    for column in columns {
        push_head(out, glyphs, width, before, column.cpu)?;
        before = Some(column.cpu);
    }
    Ok(())
}

fn push_ids(out: &mut Vec<u8>, width: usize, columns: &[Column]) -> Result<(), NoMemory>
    ensures { OnOk result (out.new.items ≡ out.old.items ++ ids_text width columns.now) }
{
    for column in columns {
        push_right_thread(out, width, column.id)?;
    }
    Ok(())
}

fn push_heading(
    out: &mut Vec<u8>,
    glyphs: &Glyphs,
    layout: &Layout,
    columns: &[Column],
) -> Result<(), NoMemory>
    ensures { OnOk result (out.new.items ≡ out.old.items ++
        heading glyphs.now layout.now columns.now) }
{
    push_right_text(out, layout.number, "cpu")?;
    push_heads(out, glyphs, layout.cell, columns)?;
    push_text(out, "\n")?;
    push_right_text(out, layout.number, "step")?;
    push_ids(out, layout.cell, columns)?;
    push_text(out, "\n")
}

// Says what to do, where there is no room for the words of rows.
fn push_hint(out: &mut Vec<u8>, layout: &Layout) -> Result<(), NoMemory>
    ensures { OnOk result (out.new.items ≡ out.old.items ++ hint_text layout.now) }
{
    if layout.line > 0 {
        return Ok(());
    }
    push_text(
        out,
        "too wide for words: l4run chart FILE TRACE --threads ID,.. shows some threads\n",
    )
}

/// Draws a chart as text on a terminal of `width` columns: two lines of heading, a line for each
/// row and for what each thread is in, and the lines of circles. If the threads take more columns
/// than there are, lines are longer, and the words of rows are left out; those of what threads are
/// in stand alone, and a last line says how to see fewer threads. Words of rows that do not fit are
/// cut off. What changes in registers stands below its row.
pub fn text_of(
    alloc: Global,
    chart: &Chart<'_, '_>,
    glyphs: &Glyphs,
    width: usize,
) -> Result<Vec<u8>, NoMemory>
    ensures { IfOk result (λ text. text.items ≡ text_of glyphs.now width (drawn_of chart.now)) }
{
    let layout = layout_of(width, chart);
    let mut out = Vec::new(alloc);
    push_heading(&mut out, glyphs, &layout, chart.columns.as_slice())?;
    push_rows(&mut out, glyphs, &layout, chart)?;
    push_standings(&mut out, glyphs, &layout, chart)?;
    out.extend_from_slice(chart.circles.as_slice())?;
    push_hint(&mut out, &layout)?;
    Ok(out)
}
