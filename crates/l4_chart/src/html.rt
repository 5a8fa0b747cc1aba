//! A chart as a page.
ghost use Rattle.std.specs.Prelude.{◌≡◌, ◌++◌, IfOk, OnOk, flat_map, map};
ghost use Rattle.std.specs.String.{string_bytes};
ghost use Rattle.l4_chart.specs.Charts.{drawn_of, row_of};
ghost use Rattle.l4_chart.specs.Pages.{wait_legend};
ghost use Rattle.l4_chart.specs.Pages.{arrow_legend, body_begin, body_picture, clock_legend};
ghost use Rattle.l4_chart.specs.Pages.{deliveries_in, heading_begin, heading_picture, is_arrow};
ghost use Rattle.l4_chart.specs.Pages.{kinds_legend, legend, legend_of, legends, open_legend};
ghost use Rattle.l4_chart.specs.Pages.{page_begin, page_of};

use crate::chart::{Chart, Row};
use crate::marks::{Kind, Mark};
use crate::scene::{HEADING, Scene};
use crate::shapes::{KINDS, class_of, meaning_of, outline_of};
use crate::svg::{STYLE, push_columns, push_rows};
use l4_types::errors::NoMemory;
use std::alloc::{AllocError, Global};

// The page around the picture. Its heading stays in sight while its rows are scrolled.
const PAGE_STYLE: &str = "\
:root{color-scheme:light dark}
body{margin:0;padding:16px;font:15px/1.4 system-ui,sans-serif;background:#fff;color:#1f2328}
h1{font-size:20px;margin:0 0 4px}
p{margin:0 0 12px}
ul{display:flex;flex-wrap:wrap;gap:4px 16px;list-style:none;margin:0 0 12px;padding:0}
li svg{vertical-align:-4px;margin-right:4px}
.chart{overflow:auto;max-height:calc(100vh - 32px);border:1px solid #b7bfc8;border-radius:6px}
.chart svg{display:block}
.heading{position:sticky;top:0}
@media(prefers-color-scheme:dark){
body{background:#0d1117;color:#f0f6fc}
.chart{border-color:#4a525c}
}
";

fn push_legend_of(
    page: &mut String,
    class: &str,
    outline: &str,
    meaning: &str,
) -> Result<(), AllocError>
    ensures { OnOk result (string_bytes page.new ≡
        string_bytes page.old ++ legend_of class.now outline.now meaning.now) }
{
    writeln!(
        page,
        "<li><svg width=\"18\" height=\"18\" viewBox=\"-9 -9 18 18\">\
         <path class=\"{class}\" d=\"M0 0{outline}\"/></svg>{meaning}</li>"
    )
}

fn push_legend(page: &mut String, kind: Kind) -> Result<(), AllocError>
    ensures { OnOk result (string_bytes page.new ≡ string_bytes page.old ++ legend kind) }
{
    push_legend_of(page, class_of(kind), outline_of(kind), meaning_of(kind))
}

fn push_kinds(page: &mut String, kinds: &[Kind]) -> Result<(), AllocError>
    ensures { OnOk result (string_bytes page.new ≡
        string_bytes page.old ++ flat_map legend kinds.now) }
{
    for kind in kinds {
        push_legend(page, *kind)?;
    }
    Ok(())
}

// Appends what each mark of one thread means.
#[tactic(auto, unfolding(crate::specs::Pages::kinds_legend))]
fn push_kinds_legend(page: &mut String) -> Result<(), AllocError>
    ensures { OnOk result (string_bytes page.new ≡ string_bytes page.old ++ kinds_legend) }
{
    push_kinds(page, &KINDS)
}

#[tactic(auto, unfolding(crate::specs::Pages::arrow_legend))]
fn push_arrow_legend(page: &mut String) -> Result<(), AllocError>
    ensures { OnOk result (string_bytes page.new ≡ string_bytes page.old ++ arrow_legend) }
{
    page.push_str(
        "<ul>\n<li><svg width=\"36\" height=\"18\" viewBox=\"0 -9 36 18\">\
         <path class=\"arrow\" d=\"M2 0H34M26-5L34 0L26 5\"/></svg>a delivery</li>\n",
    )
}

#[tactic(auto, unfolding(crate::specs::Pages::open_legend))]
fn push_open_legend(page: &mut String) -> Result<(), AllocError>
    ensures { OnOk result (string_bytes page.new ≡ string_bytes page.old ++ open_legend) }
{
    page.push_str(
        "<li><svg width=\"36\" height=\"18\" viewBox=\"0 -9 36 18\">\
         <path class=\"open\" d=\"M2 0H22\"/><path class=\"lost\" d=\"M22-5L32 0L22 5z\"/></svg>\
         a send that has not arrived</li>\n",
    )
}

#[tactic(auto, unfolding(crate::specs::Pages::wait_legend))]
fn push_wait_legend(page: &mut String) -> Result<(), AllocError>
    ensures { OnOk result (string_bytes page.new ≡ string_bytes page.old ++ wait_legend) }
{
    page.push_str(
        "<li><svg width=\"18\" height=\"18\" viewBox=\"-9 -9 18 18\">\
         <path class=\"thread\" d=\"M0-9V9\"/><path class=\"waits\" d=\"M0-9V9\"/></svg>\
         a thread waits</li>\n",
    )
}

#[tactic(auto, unfolding(crate::specs::Pages::clock_legend))]
fn push_clock_legend(page: &mut String) -> Result<(), AllocError>
    ensures { OnOk result (string_bytes page.new ≡ string_bytes page.old ++ clock_legend) }
{
    page.push_str(
        "<li><svg width=\"36\" height=\"18\" viewBox=\"0 -9 36 18\">\
         <path class=\"clock\" d=\"M2 0H34\"/></svg>a clock advances, in microseconds</li>\n\
         </ul>\n",
    )
}

// Appends what each mark means.
fn push_legends(page: &mut String) -> Result<(), AllocError>
    ensures { OnOk result (string_bytes page.new ≡ string_bytes page.old ++ legends) }
{
    push_arrow_legend(page)?;
    push_kinds_legend(page)?;
    push_open_legend(page)?;
    push_wait_legend(page)?;
    push_clock_legend(page)
}

fn is_arrow(mark: &Mark) -> bool
    ensures { result ≡ is_arrow mark.now }
{
    matches!(mark, Mark::Arrow { .. })
}

// How many deliveries a chart shows.
fn arrow_count(rows: &[Row<'_, '_>]) -> usize
    ensures { result ≡ deliveries_in (map row_of rows.now) }
{
    rows.iter().filter(|row| is_arrow(&row.mark())).count()
}

fn push_heading_begin(page: &mut String, width: u64) -> Result<(), AllocError>
    ensures { OnOk result (string_bytes page.new ≡ string_bytes page.old ++ heading_begin width) }
{
    writeln!(
        page,
        "<svg class=\"heading\" width=\"{width}\" height=\"56\" viewBox=\"0 0 {width} 56\">\n\
         <rect class=\"paper\" width=\"{width}\" height=\"56\"/>"
    )
}

fn push_heading(page: &mut String, scene: &Scene, chart: &Chart<'_, '_>) -> Result<(), AllocError>
    ensures { OnOk result (string_bytes page.new ≡
        string_bytes page.old ++ heading_picture scene.now (drawn_of chart.now)) }
{
    push_heading_begin(page, scene.width())?;
    push_columns(page, scene, chart.columns.as_slice())?;
    page.push_str("</svg>\n")
}

fn push_body_begin(page: &mut String, width: u64, height: u64) -> Result<(), AllocError>
    ensures { OnOk result (string_bytes page.new ≡
        string_bytes page.old ++ body_begin width height) }
{
    writeln!(
        page,
        "<svg class=\"rows\" width=\"{width}\" height=\"{height}\" \
         viewBox=\"0 56 {width} {height}\">\n\
         <rect class=\"paper\" y=\"56\" width=\"{width}\" height=\"{height}\"/>"
    )
}

fn push_body(page: &mut String, scene: &Scene, chart: &Chart<'_, '_>) -> Result<(), NoMemory>
    ensures { OnOk result (string_bytes page.new ≡
        string_bytes page.old ++ body_picture scene.now (drawn_of chart.now)) }
{
    let height = scene.height().saturating_sub(HEADING).saturating_add(8);
    push_body_begin(page, scene.width(), height)?;
    push_columns(page, scene, chart.columns.as_slice())?;
    push_rows(page, scene, chart)?;
    page.push_str("</svg>\n")?;
    Ok(())
}

fn push_begin(page: &mut String, steps: usize, deliveries: usize) -> Result<(), AllocError>
    ensures { OnOk result (string_bytes page.new ≡
        string_bytes page.old ++ page_begin steps deliveries) }
{
    writeln!(
        page,
        "<!DOCTYPE html>\n<html lang=\"en\">\n<head>\n<meta charset=\"utf-8\">\n\
         <meta name=\"viewport\" content=\"width=device-width,initial-scale=1\">\n\
         <title>l4run chart</title>\n<style>\n{PAGE_STYLE}{STYLE}</style>\n</head>\n<body>\n\
         <h1>Chart of a trace</h1>\n<p>Steps: {steps}. Deliveries: {deliveries}.</p>"
    )
}

/// A chart as a page, an HTML file that stands alone: how much it shows, what the marks mean, and
/// the picture. It is light or dark as the screen is.
#[tactic(auto, using(crate::proofs::Pictured::as_many_rows))]
pub fn html_of(alloc: Global, chart: &Chart<'_, '_>) -> Result<String, NoMemory>
    ensures { IfOk result (λ page. string_bytes page ≡ page_of (drawn_of chart.now)) }
{
    let scene = Scene::of(chart);
    let mut page = String::new(alloc);
    push_begin(
        &mut page,
        chart.rows.len(),
        arrow_count(chart.rows.as_slice()),
    )?;
    push_legends(&mut page)?;
    page.push_str("<div class=\"chart\">\n")?;
    push_heading(&mut page, &scene, chart)?;
    push_body(&mut page, &scene, chart)?;
    page.push_str("</div>\n</body>\n</html>\n")?;
    Ok(page)
}
