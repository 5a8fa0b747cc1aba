//! A chart as text for Mermaid, which draws sequence diagrams.
ghost use Rattle.std.specs.Prelude.{◌≡◌, ◌++◌, ◌-◌, IfOk, None, OnOk, flat_map, length, map, slice_get};
ghost use Rattle.std.specs.String.{string_bytes};
ghost use Rattle.l4_json.specs.Lines.{all_but_last};
ghost use Rattle.l4_words.specs.Lines.{parts_of};
ghost use Rattle.l4_chart.specs.Charts.{drawn_of, row_of};
ghost use Rattle.l4_chart.specs.Diagrams.{as_id, box_begin, box_end, circle_line, circle_lines, clock_over};
ghost use Rattle.l4_chart.specs.Diagrams.{diagram_of, ends_from, escaped, escaped_byte};
ghost use Rattle.l4_chart.specs.Diagrams.{first_or, message, name, note_between, note_over};
ghost use Rattle.l4_chart.specs.Diagrams.{participant, participants, row_line, row_mark};
ghost use Rattle.l4_chart.specs.Diagrams.{standing_line, standing_stroke};

use crate::chart::{Chart, Row};
use crate::columns::Column;
use crate::ink;
use crate::marks::Mark;
use crate::standings::Standing;
use crate::words::words_of;
use l4_types::errors::NoMemory;
use l4_types::ids::GlobalId;
use l4_words::lines::split_line;
use std::alloc::{AllocError, Global};

// Appends the name of a thread, in which no dot may stand.
#[tactic(auto, unfolding(crate::specs::Diagrams::name))]
fn push_name(out: &mut String, thread: GlobalId) -> Result<(), AllocError>
    ensures { OnOk result (string_bytes out.new ≡ string_bytes out.old ++ name thread) }
{
    let number = thread.number();
    let version = thread.version();
    write!(out, "T{number}_{version}")
}

// Appends what a thread is called.
#[tactic(auto, unfolding(crate::specs::Diagrams::as_id))]
fn push_as_id(out: &mut String, thread: GlobalId) -> Result<(), AllocError>
    ensures { OnOk result (string_bytes out.new ≡ string_bytes out.old ++ as_id thread) }
{
    let number = thread.number();
    let version = thread.version();
    writeln!(out, " as {number}.{version}")
}

fn push_participant(out: &mut String, column: &Column) -> Result<(), AllocError>
    ensures { OnOk result (string_bytes out.new ≡
        string_bytes out.old ++ participant column.now) }
{
    out.push_str("  participant ")?;
    push_name(out, column.id)?;
    push_as_id(out, column.id)
}

// Appends the end of a box, if one has begun.
fn push_box_end(out: &mut String, before: Option<u8>) -> Result<(), AllocError>
    ensures { OnOk result (string_bytes out.new ≡ string_bytes out.old ++ box_end before) }
{
    match before {
        Some(_) => out.push_str("  end\n"),
        None => Ok(()),
    }
}

// Appends the beginning of the box of a processor, if the thread before is on another.
fn push_box_begin(out: &mut String, before: Option<u8>, cpu: u8) -> Result<(), AllocError>
    ensures { OnOk result (string_bytes out.new ≡
        string_bytes out.old ++ box_begin before cpu) }
{
    if before == Some(cpu) {
        return Ok(());
    }
    push_box_end(out, before)?;
    writeln!(out, "  box cpu {cpu}")
}

// Appends the threads, those of each processor in a box.
fn push_participants(out: &mut String, columns: &[Column]) -> Result<(), AllocError>
    ensures { OnOk result (string_bytes out.new ≡
        string_bytes out.old ++ participants None columns.now) }
{
    let mut before = None;
    for column in columns {
        push_box_begin(out, before, column.cpu)?;
        push_participant(out, column)?;
        before = Some(column.cpu);
    }
    push_box_end(out, before)
}

fn push_escaped(out: &mut Vec<u8>, byte: u8) -> Result<(), NoMemory>
    ensures { OnOk result (out.new.items ≡ out.old.items ++ escaped_byte byte) }
{
    match byte {
        b'#' => ink::push_text(out, "#35;"),
        b'\n' => ink::push_text(out, "<br/>"),
        _ => {
            out.push(byte)?;
            Ok(())
        }
    }
}

// A text as it stands in a message. A `#` in it is escaped, since it would begin a comment, and so
// are the ends of lines.
fn escaped(alloc: Global, text: &[u8]) -> Result<String, NoMemory>
    ensures { IfOk result (λ escaped_text. string_bytes escaped_text ≡ escaped text.now) }
{
    let mut bytes = Vec::new(alloc);
    for byte in text {
        push_escaped(&mut bytes, *byte)?;
    }
    let escaped_text = String::from_utf8_lossy(alloc, bytes.as_slice())?;
    Ok(escaped_text)
}

fn push_text(out: &mut String, text: &[u8]) -> Result<(), NoMemory>
    ensures { OnOk result (string_bytes out.new ≡ string_bytes out.old ++ escaped text.now) }
{
    let escaped_text = escaped(*out.allocator(), text)?;
    out.push_str(escaped_text.as_str())?;
    Ok(())
}

fn push_note_over(out: &mut String, thread: GlobalId) -> Result<(), AllocError>
    ensures { OnOk result (string_bytes out.new ≡ string_bytes out.old ++ note_over thread) }
{
    out.push_str("  Note over ")?;
    push_name(out, thread)
}

// Appends a note over threads, by the first and the last of them.
fn push_note_between(out: &mut String, first: GlobalId, last: GlobalId) -> Result<(), AllocError>
    ensures { OnOk result (string_bytes out.new ≡
        string_bytes out.old ++ note_between first last) }
{
    push_note_over(out, first)?;
    if first == last {
        return Ok(());
    }
    out.push(',')?;
    push_name(out, last)
}

fn first_or(ends: Option<(GlobalId, GlobalId)>, thread: GlobalId) -> GlobalId
    ensures { result ≡ first_or ends thread }
{
    match ends {
        Some((first, _)) => first,
        None => thread,
    }
}

// The first and the last thread of a processor that are shown.
fn ends_of(columns: &[Column], cpu: u8) -> Option<(GlobalId, GlobalId)>
    ensures { result ≡ ends_from cpu None columns.now }
{
    let mut ends = None;
    for column in columns {
        if column.cpu == cpu {
            ends = Some((first_or(ends, column.id), column.id));
        }
    }
    ends
}

// Appends a note over the threads of a processor, or a comment if none of them is shown.
fn push_clock(out: &mut String, columns: &[Column], cpu: u8) -> Result<(), AllocError>
    ensures { OnOk result (string_bytes out.new ≡
        string_bytes out.old ++ clock_over (ends_from cpu None columns.now)) }
{
    match ends_of(columns, cpu) {
        Some((first, last)) => push_note_between(out, first, last),
        None => out.push_str("  %% "),
    }
}

fn push_message(
    out: &mut String,
    arrow: &str,
    sender: GlobalId,
    receiver: GlobalId,
) -> Result<(), AllocError>
    ensures { OnOk result (string_bytes out.new ≡
        string_bytes out.old ++ message arrow.now sender receiver) }
{
    out.push_str("  ")?;
    push_name(out, sender)?;
    out.push_str(arrow)?;
    push_name(out, receiver)
}

fn push_mark(out: &mut String, columns: &[Column], mark: &Mark) -> Result<(), AllocError>
    ensures { OnOk result (string_bytes out.new ≡
        string_bytes out.old ++ row_mark columns.now mark.now) }
{
    match *mark {
        Mark::Point { thread, .. } => push_note_over(out, thread),
        Mark::Arrow { sender, receiver } => push_message(out, "->>", sender, receiver),
        Mark::Clock { cpu, .. } => push_clock(out, columns, cpu),
    }
}

fn push_row(out: &mut String, columns: &[Column], row: &Row<'_, '_>) -> Result<(), NoMemory>
    ensures { OnOk result (string_bytes out.new ≡
        string_bytes out.old ++ row_line columns.now (row_of row.now)) }
{
    let words = words_of(*out.allocator(), row)?;
    push_mark(out, columns, &row.mark())?;
    out.push_str(": ")?;
    push_text(out, words.as_slice())?;
    push_text(out, row.changes.as_slice())?;
    out.push('\n')?;
    Ok(())
}

fn push_rows(out: &mut String, columns: &[Column], rows: &[Row<'_, '_>]) -> Result<(), NoMemory>
    ensures { OnOk result (string_bytes out.new ≡ string_bytes out.old ++
        flat_map (row_line columns.now) (map row_of rows.now)) }
{
    for row in rows {
        push_row(out, columns, row)?;
    }
    Ok(())
}

fn push_standing_mark(out: &mut String, mark: &Mark, thread: GlobalId) -> Result<(), AllocError>
    ensures { OnOk result (string_bytes out.new ≡
        string_bytes out.old ++ standing_stroke mark.now thread) }
{
    match *mark {
        Mark::Arrow { sender, receiver } => push_message(out, "--x", sender, receiver),
        _ => push_note_over(out, thread),
    }
}

// Appends what a thread is in: a note, or a message that gets lost.
fn push_standing(out: &mut String, standing: &Standing<'_>) -> Result<(), NoMemory>
    ensures { OnOk result (string_bytes out.new ≡
        string_bytes out.old ++ standing_line standing.now) }
{
    let mut words = Vec::new(*out.allocator());
    standing.push_words(&mut words)?;
    push_standing_mark(out, &standing.mark(), standing.id)?;
    out.push_str(": ")?;
    push_text(out, words.as_slice())?;
    out.push('\n')?;
    Ok(())
}

fn push_standings(out: &mut String, standings: &[Standing<'_>]) -> Result<(), NoMemory>
    ensures { OnOk result (string_bytes out.new ≡
        string_bytes out.old ++ flat_map standing_line standings.now) }
{
    for standing in standings {
        push_standing(out, standing)?;
    }
    Ok(())
}

fn push_circle(
    out: &mut String,
    first: GlobalId,
    last: GlobalId,
    line: &[u8],
) -> Result<(), NoMemory>
    ensures { OnOk result (string_bytes out.new ≡
        string_bytes out.old ++ circle_line first last line.now) }
{
    push_note_between(out, first, last)?;
    out.push_str(": ")?;
    push_text(out, line)?;
    out.push('\n')?;
    Ok(())
}

fn push_circles_over(
    out: &mut String,
    first: GlobalId,
    last: GlobalId,
    circles: &[u8],
) -> Result<(), NoMemory>
    ensures { OnOk result (string_bytes out.new ≡ string_bytes out.old ++
        flat_map (circle_line first last) (all_but_last (parts_of circles.now))) }
{
    let mut left = circles;
    while let Some((line, rest)) = split_line(left) {
        push_circle(out, first, last, line)?;
        left = rest;
    }
    Ok(())
}

// Appends a note over all threads for each circle.
fn push_circles(out: &mut String, columns: &[Column], circles: &[u8]) -> Result<(), NoMemory>
    ensures { OnOk result (string_bytes out.new ≡ string_bytes out.old ++
        circle_lines (slice_get columns.now 0) (slice_get columns.now (length columns.now - 1))
        (all_but_last (parts_of circles.now))) }
{
    match (columns.first(), columns.last()) {
        (Some(first), Some(last)) => push_circles_over(out, first.id, last.id, circles),
        _ => Ok(()),
    }
}

/// A chart as a sequence diagram of Mermaid: a message for each delivery, and a note for each other
/// step and for what each thread is in. A send that has not arrived is a message that gets lost. A
/// thread that is not shown has no processor there.
pub fn mermaid_of(alloc: Global, chart: &Chart<'_, '_>) -> Result<String, NoMemory>
    ensures { IfOk result (λ diagram. string_bytes diagram ≡ diagram_of (drawn_of chart.now)) }
{
    let mut out = String::from_str(alloc, "sequenceDiagram\n")?;
    push_participants(&mut out, chart.columns.as_slice())?;
    push_rows(&mut out, chart.columns.as_slice(), chart.rows.as_slice())?;
    push_standings(&mut out, chart.standings.as_slice())?;
    push_circles(&mut out, chart.columns.as_slice(), chart.circles.as_slice())?;
    Ok(out)
}
