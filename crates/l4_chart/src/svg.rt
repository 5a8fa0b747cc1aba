//! A chart as a picture.
ghost use Rattle.std.specs.Prelude.{◌≡◌, ◌++◌, ◌-◌, IfOk, None, OnOk, flat_map, length, map, take};
ghost use Rattle.std.specs.List.{enumerate_from};
ghost use Rattle.std.specs.String.{string_bytes};
ghost use Rattle.l4_json.specs.Lines.{all_but_last};
ghost use Rattle.l4_words.specs.Lines.{parts_of};
ghost use Rattle.l4_chart.specs.Charts.{drawn_of, row_of};
ghost use Rattle.l4_chart.specs.Pictures.{ended_wait, wait_at, wait_line, waits_from, waits_picture};
ghost use Rattle.l4_chart.specs.Pictures.{waits_since};
ghost use Rattle.l4_chart.specs.Pictures.{arrow, back, band, band_at, bands, behind, behind_rows};
ghost use Rattle.l4_chart.specs.Pictures.{border, circle_picture, circles_picture, clock_at};
ghost use Rattle.l4_chart.specs.Pictures.{clock_line, clock_over, columns_picture, columns_start};
ghost use Rattle.l4_chart.specs.Pictures.{columns_width, count_of_cpu, dot, first_of_cpu, hit, new_band};
ghost use Rattle.l4_chart.specs.Pictures.{number_at, open_arrow, open_stroke, picture_begin};
ghost use Rattle.l4_chart.specs.Pictures.{picture_of, row_class, row_hit, row_picture};
ghost use Rattle.l4_chart.specs.Pictures.{rows_picture, standing_picture, standings_picture};
ghost use Rattle.l4_chart.specs.Pictures.{stroke_picture, thread_at, thread_line, title, words_at};
ghost use Rattle.l4_chart.specs.Pictures.{words_in};
ghost use Rattle.l4_chart.specs.Scenes.{row_y, width_of};

use crate::cells::{Stroke, stroke_of};
use crate::chart::{Chart, Row};
use crate::columns::Column;
use crate::marks::Kind;
use crate::markup::escaped;
use crate::scene::Scene;
use crate::shapes::{class_of, outline_of};
use crate::standings::Standing;
use crate::waiting::waits_at;
use crate::words::words_of;
use l4_types::errors::NoMemory;
use l4_words::lines::split_line;
use std::alloc::{AllocError, Global};

/// The colours and lines of a picture, for light and for dark screens.
pub(crate) const STYLE: &str = "\
text{font:12px ui-monospace,Menlo,Consolas,'DejaVu Sans Mono',monospace;fill:#1f2328}
.paper{fill:#fff}
.band{fill:#f3f5f7}
.hit{fill:none;pointer-events:all}
.row:hover .hit{fill:#8c959f33}
.id,.cpu{text-anchor:middle}
.id{font-weight:bold}
.number{text-anchor:end}
.number,.cpu{fill:#59636e}
.failure text{fill:#cf222e}
path{fill:none;stroke:#1f2328;stroke-width:1.5}
path.thread{stroke:#b7bfc8;stroke-width:1}
path.waits{stroke:#8c959f;stroke-width:5;stroke-dasharray:1 3}
path.arrow{stroke:#0969da;stroke-width:2}
path.local{fill:#1f2328;stroke:none}
path.begin,path.queue,path.wait{fill:#fff}
path.sfail,path.rfail{stroke:#cf222e;stroke-width:2}
path.sfail{stroke-width:3}
path.rfail{fill:#fff}
path.order,path.obey{fill:#8250df;stroke:none}
path.retarget{stroke:#8250df}
path.clock{stroke:#9a6700;stroke-dasharray:6 4}
path.open{stroke:#cf222e;stroke-width:2;stroke-dasharray:4 4}
path.lost{stroke:#cf222e;stroke-width:2;fill:#fff}
path.ended,path.deleted{stroke-width:2}
path.behind{stroke:#b7bfc8}
.circle text{fill:#cf222e;font-weight:bold}
text.time{fill:#9a6700}
@media(prefers-color-scheme:dark){
text{fill:#f0f6fc}
.paper{fill:#0d1117}
.band{fill:#161d26}
.number,.cpu{fill:#9198a1}
.failure text{fill:#ff7b72}
path{stroke:#f0f6fc}
path.thread{stroke:#4a525c}
path.waits{stroke:#6e7681}
path.arrow{stroke:#4493f8}
path.local{fill:#f0f6fc}
path.begin,path.queue,path.wait{fill:#0d1117}
path.sfail,path.rfail{stroke:#ff7b72}
path.rfail{fill:#0d1117}
path.order,path.obey{fill:#ab7df8}
path.retarget{stroke:#ab7df8}
path.clock{stroke:#d29922}
path.open{stroke:#ff7b72}
path.lost{stroke:#ff7b72;fill:#0d1117}
path.behind{stroke:#4a525c}
.circle text{fill:#ff7b72}
text.time{fill:#d29922}
}
";

// How many characters of a line are shown. The title has all of them.
const SHOWN_CHARACTERS: usize = 60;

// How many columns are of this processor. They stand one after another.
fn count_of_cpu(columns: &[Column], cpu: u8) -> usize
    ensures { result ≡ count_of_cpu columns.now cpu }
{
    columns.iter().filter(|column| column.cpu == cpu).count()
}

// The left edge of a column.
fn columns_start(scene: &Scene, first: usize) -> u64
    ensures { result ≡ columns_start scene.now first }
{
    scene.column_x(first).saturating_sub(scene.step / 2)
}

// How wide so many columns are.
fn columns_width(scene: &Scene, count: usize) -> u64
    ensures { result ≡ columns_width scene.now count }
{
    scene.step.saturating_mul(count as u64)
}

fn push_band_at(
    svg: &mut String,
    x: u64,
    width: u64,
    height: u64,
    cpu: u8,
) -> Result<(), AllocError>
    ensures { OnOk result (string_bytes svg.new ≡
        string_bytes svg.old ++ band_at x width height cpu) }
{
    let middle = x.saturating_add(width / 2);
    writeln!(
        svg,
        "<g><title>cpu {cpu}</title><rect class=\"band\" x=\"{x}\" y=\"4\" width=\"{width}\" \
         height=\"{height}\" rx=\"6\"/>\
         <text class=\"cpu\" x=\"{middle}\" y=\"22\">cpu {cpu}</text></g>"
    )
}

// Appends the band of a processor, behind its threads.
fn push_band(
    svg: &mut String,
    scene: &Scene,
    first: usize,
    count: usize,
    cpu: u8,
) -> Result<(), AllocError>
    ensures { OnOk result (string_bytes svg.new ≡
        string_bytes svg.old ++ band scene.now first count cpu) }
{
    let x = columns_start(scene, first).saturating_add(2);
    let width = columns_width(scene, count).saturating_sub(4);
    push_band_at(svg, x, width, scene.height(), cpu)
}

// Appends the band of the processor of a thread, unless the thread before is on it.
#[tactic(auto, unfolding(crate::specs::Pictures::new_band))]
fn push_new_band(
    svg: &mut String,
    scene: &Scene,
    columns: &[Column],
    before: Option<u8>,
    place: usize,
    column: &Column,
) -> Result<(), AllocError>
    ensures { OnOk result (string_bytes svg.new ≡ string_bytes svg.old ++
        new_band scene.now columns.now before (place, column.now)) }
{
    if before == Some(column.cpu) {
        return Ok(());
    }
    push_band(
        svg,
        scene,
        place,
        count_of_cpu(columns, column.cpu),
        column.cpu,
    )
}

fn push_bands(svg: &mut String, scene: &Scene, columns: &[Column]) -> Result<(), AllocError>
    ensures { OnOk result (string_bytes svg.new ≡ string_bytes svg.old ++
        bands scene.now columns.now None 0 columns.now) }
{
    let mut before = None;
    for (place, column) in columns.iter().enumerate() {
        push_new_band(svg, scene, columns, before, place, column)?;
        before = Some(column.cpu);
    }
    Ok(())
}

fn push_thread_at(
    svg: &mut String,
    x: u64,
    end: u64,
    number: u32,
    version: u32,
) -> Result<(), AllocError>
    ensures { OnOk result (string_bytes svg.new ≡
        string_bytes svg.old ++ thread_at x end number version) }
{
    writeln!(
        svg,
        "<g><title>{number}.{version}</title><path class=\"thread\" d=\"M{x} 50V{end}\"/>\
         <text class=\"id\" x=\"{x}\" y=\"44\">{number}.{version}</text></g>"
    )
}

fn push_thread(
    svg: &mut String,
    scene: &Scene,
    place: usize,
    column: &Column,
) -> Result<(), AllocError>
    ensures { OnOk result (string_bytes svg.new ≡
        string_bytes svg.old ++ thread_line scene.now (place, column.now)) }
{
    push_thread_at(
        svg,
        scene.column_x(place),
        scene.height(),
        column.id.number(),
        column.id.version(),
    )
}

fn push_threads(svg: &mut String, scene: &Scene, columns: &[Column]) -> Result<(), AllocError>
    ensures { OnOk result (string_bytes svg.new ≡ string_bytes svg.old ++
        flat_map (thread_line scene.now) (enumerate_from 0 columns.now)) }
{
    for (place, column) in columns.iter().enumerate() {
        push_thread(svg, scene, place, column)?;
    }
    Ok(())
}

/// Appends the processors and the threads of a chart.
pub(crate) fn push_columns(
    svg: &mut String,
    scene: &Scene,
    columns: &[Column],
) -> Result<(), AllocError>
    ensures { OnOk result (string_bytes svg.new ≡
        string_bytes svg.old ++ columns_picture scene.now columns.now) }
{
    push_bands(svg, scene, columns)?;
    push_threads(svg, scene, columns)
}

#[tactic(auto, unfolding(crate::specs::Pictures::dot))]
fn push_dot(svg: &mut String, x: u64, y: u64, kind: Kind) -> Result<(), AllocError>
    ensures { OnOk result (string_bytes svg.new ≡ string_bytes svg.old ++ dot x y kind) }
{
    let class = class_of(kind);
    let outline = outline_of(kind);
    write!(svg, "<path class=\"{class}\" d=\"M{x} {y}{outline}\"/>")
}

// How far an arrow goes before it is so many pixels in front of its end.
fn back(from: u64, to: u64, way: u64) -> u64
    ensures { result ≡ back from to way }
{
    if from < to {
        to.saturating_sub(way)
    } else {
        to.saturating_add(way)
    }
}

fn push_arrow(svg: &mut String, from: u64, to: u64, y: u64) -> Result<(), AllocError>
    ensures { OnOk result (string_bytes svg.new ≡ string_bytes svg.old ++ arrow from to y) }
{
    let back = back(from, to, 8);
    let above = y.saturating_sub(5);
    let below = y.saturating_add(5);
    write!(
        svg,
        "<path class=\"arrow\" d=\"M{from} {y}H{to}M{back} {above}L{to} {y}L{back} {below}\"/>"
    )
}

fn push_clock_at(
    svg: &mut String,
    start: u64,
    end: u64,
    clock: u64,
    y: u64,
) -> Result<(), AllocError>
    ensures { OnOk result (string_bytes svg.new ≡
        string_bytes svg.old ++ clock_at start end clock y) }
{
    let x = start.saturating_add(4);
    let base = y.saturating_sub(4);
    write!(
        svg,
        "<path class=\"clock\" d=\"M{start} {y}H{end}\"/>\
         <text class=\"time\" x=\"{x}\" y=\"{base}\">{clock}</text>"
    )
}

// Appends a line over so many threads, from the first of a processor on, and what its clock has
// become.
#[tactic(auto, unfolding(crate::specs::Pictures::clock_over))]
fn push_clock_over(
    svg: &mut String,
    scene: &Scene,
    first: Option<usize>,
    count: usize,
    clock: u64,
    y: u64,
) -> Result<(), AllocError>
    ensures { OnOk result (string_bytes svg.new ≡
        string_bytes svg.old ++ clock_over scene.now first count clock y) }
{
    let Some(first) = first else {
        return Ok(());
    };
    let start = columns_start(scene, first);
    let end = start.saturating_add(columns_width(scene, count));
    push_clock_at(svg, start, end, clock, y)
}

// The first column of a processor.
fn first_of_cpu(columns: &[Column], cpu: u8) -> Option<usize>
    ensures { result ≡ first_of_cpu columns.now cpu }
{
    columns.iter().position(|column| column.cpu == cpu)
}

fn push_clock(
    svg: &mut String,
    scene: &Scene,
    columns: &[Column],
    cpu: u8,
    clock: u64,
    y: u64,
) -> Result<(), AllocError>
    ensures { OnOk result (string_bytes svg.new ≡
        string_bytes svg.old ++ clock_line scene.now columns.now cpu clock y) }
{
    let first = first_of_cpu(columns, cpu);
    push_clock_over(svg, scene, first, count_of_cpu(columns, cpu), clock, y)
}

fn push_stroke(
    svg: &mut String,
    scene: &Scene,
    columns: &[Column],
    stroke: &Stroke,
    y: u64,
) -> Result<(), AllocError>
    ensures { OnOk result (string_bytes svg.new ≡
        string_bytes svg.old ++ stroke_picture scene.now columns.now stroke.now y) }
{
    match *stroke {
        Stroke::Dot { at, kind } => push_dot(svg, scene.end_x(at), y, kind),
        Stroke::Shaft { from, to } => push_arrow(svg, scene.end_x(from), scene.end_x(to), y),
        Stroke::Ticks { cpu, clock } => push_clock(svg, scene, columns, cpu, clock, y),
    }
}

// Appends a send that has not arrived: an arrow that ends in front of its receiver.
fn push_open(svg: &mut String, from: u64, to: u64, y: u64) -> Result<(), AllocError>
    ensures { OnOk result (string_bytes svg.new ≡ string_bytes svg.old ++ open_arrow from to y) }
{
    let stop = back(from, to, 18);
    let tip = back(from, to, 8);
    let above = y.saturating_sub(5);
    let below = y.saturating_add(5);
    write!(
        svg,
        "<path class=\"open\" d=\"M{from} {y}H{stop}\"/>\
         <path class=\"lost\" d=\"M{stop} {above}L{tip} {y}L{stop} {below}z\"/>"
    )
}

fn push_open_stroke(
    svg: &mut String,
    scene: &Scene,
    stroke: &Stroke,
    y: u64,
) -> Result<(), AllocError>
    ensures { OnOk result (string_bytes svg.new ≡
        string_bytes svg.old ++ open_stroke scene.now stroke.now y) }
{
    match *stroke {
        Stroke::Dot { at, kind } => push_dot(svg, scene.end_x(at), y, kind),
        Stroke::Shaft { from, to } => push_open(svg, scene.end_x(from), scene.end_x(to), y),
        Stroke::Ticks { .. } => Ok(()),
    }
}

// The class of a row: whether something failed there.
fn row_class(stroke: &Stroke) -> &'static str
    ensures { result.now ≡ row_class stroke.now }
{
    match *stroke {
        Stroke::Dot {
            kind: Kind::SendFailure | Kind::ReceiveFailure,
            ..
        } => "row failure",
        _ => "row",
    }
}

// What is shown of a line.
#[tactic(auto, using(std::proofs::lemmas::List::take_min))]
fn shown(line: &[u8]) -> &[u8]
    ensures { result.now ≡ take 60 line.now }
{
    &line[..SHOWN_CHARACTERS.min(line.len())]
}

// Appends the beginning of a row: its title.
#[tactic(auto, unfolding(crate::specs::Pictures::title))]
fn push_title(svg: &mut String, class: &str, words: &str, changes: &str) -> Result<(), AllocError>
    ensures { OnOk result (string_bytes svg.new ≡
        string_bytes svg.old ++ title class.now words.now changes.now) }
{
    write!(svg, "<g class=\"{class}\"><title>{words}{changes}</title>")
}

fn push_hit(svg: &mut String, top: u64, width: u64) -> Result<(), AllocError>
    ensures { OnOk result (string_bytes svg.new ≡ string_bytes svg.old ++ hit top width) }
{
    write!(
        svg,
        "<rect class=\"hit\" y=\"{top}\" width=\"{width}\" height=\"24\"/>"
    )
}

#[tactic(auto, unfolding(crate::specs::Pictures::number_at))]
fn push_number(svg: &mut String, base: u64, number: usize) -> Result<(), AllocError>
    ensures { OnOk result (string_bytes svg.new ≡ string_bytes svg.old ++ number_at base number) }
{
    write!(
        svg,
        "<text class=\"number\" x=\"48\" y=\"{base}\">{number}</text>"
    )
}

#[tactic(auto, unfolding(crate::specs::Pictures::words_at))]
fn push_words_at(svg: &mut String, x: u64, base: u64, words: &str) -> Result<(), AllocError>
    ensures { OnOk result (string_bytes svg.new ≡
        string_bytes svg.old ++ words_at x base words.now) }
{
    write!(svg, "<text x=\"{x}\" y=\"{base}\">{words}</text>")
}

// Appends what of a row is pointed at.
fn push_row_hit(svg: &mut String, scene: &Scene, place: usize) -> Result<(), AllocError>
    ensures { OnOk result (string_bytes svg.new ≡ string_bytes svg.old ++ row_hit scene.now place) }
{
    push_hit(svg, scene.row_y(place).saturating_sub(12), scene.width())
}

// Appends the words at the right of a row.
fn push_words_in(
    svg: &mut String,
    scene: &Scene,
    place: usize,
    words: &str,
) -> Result<(), AllocError>
    ensures { OnOk result (string_bytes svg.new ≡
        string_bytes svg.old ++ words_in scene.now place words.now) }
{
    let x = scene.right().saturating_add(12);
    push_words_at(svg, x, scene.row_y(place).saturating_add(4), words)
}

// Appends a row: its mark, and its words, which are the title too, with what changes in registers.
fn push_row(
    svg: &mut String,
    scene: &Scene,
    columns: &[Column],
    place: usize,
    row: &Row<'_, '_>,
) -> Result<(), NoMemory>
    ensures { OnOk result (string_bytes svg.new ≡ string_bytes svg.old ++
        row_picture scene.now columns.now (place, row_of row.now)) }
{
    let alloc = *svg.allocator();
    let words = words_of(alloc, row)?;
    let line = escaped(alloc, words.as_slice())?;
    let changes = escaped(alloc, row.changes.as_slice())?;
    let short = escaped(alloc, shown(words.as_slice()))?;
    let stroke = stroke_of(columns, &row.mark());
    let y = scene.row_y(place);
    push_title(svg, row_class(&stroke), line.as_str(), changes.as_str())?;
    push_row_hit(svg, scene, place)?;
    push_number(svg, y.saturating_add(4), row.number)?;
    push_stroke(svg, scene, columns, &stroke, y)?;
    push_words_in(svg, scene, place, short.as_str())?;
    svg.push_str("</g>\n")?;
    Ok(())
}

// Appends the beginning of a row behind the last step: its title, which is its text too.
fn push_behind(
    svg: &mut String,
    scene: &Scene,
    class: &str,
    words: &[u8],
    place: usize,
) -> Result<(), NoMemory>
    ensures { OnOk result (string_bytes svg.new ≡ string_bytes svg.old ++
        behind scene.now class.now words.now place) }
{
    let line = escaped(*svg.allocator(), words)?;
    push_title(svg, class, line.as_str(), "")?;
    push_row_hit(svg, scene, place)?;
    push_words_in(svg, scene, place, line.as_str())?;
    Ok(())
}

// Appends what a thread is in: its words, and its mark or its send that has not arrived.
fn push_standing(
    svg: &mut String,
    scene: &Scene,
    columns: &[Column],
    place: usize,
    standing: &Standing<'_>,
) -> Result<(), NoMemory>
    ensures { OnOk result (string_bytes svg.new ≡ string_bytes svg.old ++
        standing_picture scene.now columns.now place standing.now) }
{
    let mut words = Vec::new(*svg.allocator());
    standing.push_words(&mut words)?;
    let stroke = stroke_of(columns, &standing.mark());
    push_behind(svg, scene, "row state", words.as_slice(), place)?;
    push_open_stroke(svg, scene, &stroke, scene.row_y(place))?;
    svg.push_str("</g>\n")?;
    Ok(())
}

// Appends what threads are in, from the row of this place on.
fn push_standings(
    svg: &mut String,
    scene: &Scene,
    columns: &[Column],
    first: usize,
    standings: &[Standing<'_>],
) -> Result<(), NoMemory>
    ensures { OnOk result (string_bytes svg.new ≡ string_bytes svg.old ++
        standings_picture scene.now columns.now first standings.now) }
{
    let mut place = first;
    for standing in standings {
        push_standing(svg, scene, columns, place, standing)?;
        place = place.saturating_add(1);
    }
    Ok(())
}

// Appends the row of a circle.
fn push_circle(svg: &mut String, scene: &Scene, place: usize, line: &[u8]) -> Result<(), NoMemory>
    ensures { OnOk result (string_bytes svg.new ≡ string_bytes svg.old ++
        circle_picture scene.now place line.now) }
{
    push_behind(svg, scene, "row circle", line, place)?;
    svg.push_str("</g>\n")?;
    Ok(())
}

// Appends a row for each circle, from the row of this place on.
fn push_circles(
    svg: &mut String,
    scene: &Scene,
    first: usize,
    circles: &[u8],
) -> Result<(), NoMemory>
    ensures { OnOk result (string_bytes svg.new ≡ string_bytes svg.old ++
        circles_picture scene.now first (all_but_last (parts_of circles.now))) }
{
    let mut place = first;
    let mut left = circles;
    while let Some((line, rest)) = split_line(left) {
        push_circle(svg, scene, place, line)?;
        place = place.saturating_add(1);
        left = rest;
    }
    Ok(())
}

#[tactic(auto, unfolding(crate::specs::Pictures::border))]
fn push_border_at(svg: &mut String, y: u64, width: u64) -> Result<(), AllocError>
    ensures { OnOk result (string_bytes svg.new ≡ string_bytes svg.old ++ border y width) }
{
    writeln!(svg, "<path class=\"behind\" d=\"M0 {y}H{width}\"/>")
}

// Appends a line between the last step and what threads are in.
fn push_border(svg: &mut String, scene: &Scene, place: usize) -> Result<(), AllocError>
    ensures { OnOk result (string_bytes svg.new ≡ string_bytes svg.old ++
        border (row_y place - 12) (width_of scene.now)) }
{
    push_border_at(svg, scene.row_y(place).saturating_sub(12), scene.width())
}

#[tactic(auto, unfolding(crate::specs::Pictures::wait_at))]
fn push_wait_at(svg: &mut String, x: u64, start: u64, end: u64) -> Result<(), AllocError>
    ensures { OnOk result (string_bytes svg.new ≡ string_bytes svg.old ++ wait_at x start end) }
{
    writeln!(svg, "<path class=\"waits\" d=\"M{x} {start}V{end}\"/>")
}

// Appends a stretch of the line of a thread, up to a row from the one behind which it began to wait.
fn push_wait(
    svg: &mut String,
    scene: &Scene,
    place: usize,
    since: Option<usize>,
    row: usize,
) -> Result<(), AllocError>
    ensures { OnOk result (string_bytes svg.new ≡ string_bytes svg.old ++
        wait_line scene.now place since row) }
{
    let Some(first) = since else {
        return Ok(());
    };
    push_wait_at(
        svg,
        scene.column_x(place),
        scene.row_y(first),
        scene.row_y(row),
    )
}

// Appends the stretch that ends at a row, unless the thread goes on to wait there.
fn push_ended_wait(
    svg: &mut String,
    scene: &Scene,
    place: usize,
    since: Option<usize>,
    row: usize,
    waits: bool,
) -> Result<(), AllocError>
    ensures { OnOk result (string_bytes svg.new ≡ string_bytes svg.old ++
        ended_wait scene.now place since row waits) }
{
    if waits {
        return Ok(());
    }
    push_wait(svg, scene, place, since, row)
}

// Since which row a thread waits, behind one more row.
fn waits_since(since: Option<usize>, row: usize, waits: bool) -> Option<usize>
    ensures { result ≡ waits_since since row waits }
{
    if !waits {
        return None;
    }
    Some(since.unwrap_or(row))
}

// Appends the stretches of the line of a thread in which it waits.
fn push_waits_of(
    svg: &mut String,
    scene: &Scene,
    place: usize,
    rows: &[Row<'_, '_>],
) -> Result<(), AllocError>
    ensures { OnOk result (string_bytes svg.new ≡ string_bytes svg.old ++
        waits_from scene.now place None 0 (map row_of rows.now)) }
{
    let mut since = None;
    for (at, row) in rows.iter().enumerate() {
        let waits = waits_at(row.waits.as_slice(), place);
        push_ended_wait(svg, scene, place, since, at, waits)?;
        since = waits_since(since, at, waits);
    }
    push_wait(svg, scene, place, since, rows.len())
}

// Appends the stretches in which threads wait.
fn push_waits(
    svg: &mut String,
    scene: &Scene,
    count: usize,
    rows: &[Row<'_, '_>],
) -> Result<(), AllocError>
    ensures { OnOk result (string_bytes svg.new ≡ string_bytes svg.old ++
        waits_picture scene.now count (map row_of rows.now)) }
{
    for place in 0..count {
        push_waits_of(svg, scene, place, rows)?;
    }
    Ok(())
}

// Appends the steps that are shown.
fn push_steps(
    svg: &mut String,
    scene: &Scene,
    columns: &[Column],
    rows: &[Row<'_, '_>],
) -> Result<(), NoMemory>
    ensures { OnOk result (string_bytes svg.new ≡ string_bytes svg.old ++
        flat_map (row_picture scene.now columns.now) (enumerate_from 0 (map row_of rows.now))) }
{
    for (place, row) in rows.iter().enumerate() {
        push_row(svg, scene, columns, place, row)?;
    }
    Ok(())
}

// Appends what stands behind the last of so many steps.
#[tactic(auto, unfolding(crate::specs::Pictures::behind_rows))]
fn push_behind_rows(
    svg: &mut String,
    scene: &Scene,
    columns: &[Column],
    steps: usize,
    standings: &[Standing<'_>],
    circles: &[u8],
) -> Result<(), NoMemory>
    ensures { OnOk result (string_bytes svg.new ≡ string_bytes svg.old ++
        behind_rows scene.now columns.now steps standings.now circles.now) }
{
    push_border(svg, scene, steps)?;
    push_standings(svg, scene, columns, steps, standings)?;
    push_circles(svg, scene, steps.saturating_add(standings.len()), circles)
}

/// Appends the rows of a chart, and behind them what threads are in.
#[tactic(auto, using(crate::proofs::Pictured::as_many_rows))]
pub(crate) fn push_rows(
    svg: &mut String,
    scene: &Scene,
    chart: &Chart<'_, '_>,
) -> Result<(), NoMemory>
    ensures { OnOk result (string_bytes svg.new ≡ string_bytes svg.old ++
        rows_picture scene.now (drawn_of chart.now)) }
{
    push_waits(svg, scene, chart.columns.len(), chart.rows.as_slice())?;
    push_steps(svg, scene, chart.columns.as_slice(), chart.rows.as_slice())?;
    push_behind_rows(
        svg,
        scene,
        chart.columns.as_slice(),
        chart.rows.len(),
        chart.standings.as_slice(),
        chart.circles.as_slice(),
    )
}

fn push_begin(svg: &mut String, width: u64, height: u64) -> Result<(), AllocError>
    ensures { OnOk result (string_bytes svg.new ≡
        string_bytes svg.old ++ picture_begin width height) }
{
    writeln!(
        svg,
        "<svg xmlns=\"http://www.w3.org/2000/svg\" width=\"{width}\" height=\"{height}\" \
         viewBox=\"0 0 {width} {height}\">\n<style>\n{STYLE}</style>\n\
         <rect class=\"paper\" width=\"{width}\" height=\"{height}\"/>"
    )
}

/// A chart as a picture, an SVG file that stands alone. Each mark has the words of its row as title,
/// and what changes in registers. The picture is light or dark as the screen is.
pub fn svg_of(alloc: Global, chart: &Chart<'_, '_>) -> Result<String, NoMemory>
    ensures { IfOk result (λ svg. string_bytes svg ≡ picture_of (drawn_of chart.now)) }
{
    let scene = Scene::of(chart);
    let mut svg = String::new(alloc);
    push_begin(&mut svg, scene.width(), scene.height().saturating_add(8))?;
    push_columns(&mut svg, &scene, chart.columns.as_slice())?;
    push_rows(&mut svg, &scene, chart)?;
    svg.push_str("</svg>\n")?;
    Ok(svg)
}
