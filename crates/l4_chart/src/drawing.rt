//! A chart in each of its forms.
ghost use Rattle.std.specs.Prelude.{IfOk};
ghost use Rattle.l4_chart.specs.Charts.{drawn_of};
ghost use Rattle.l4_chart.specs.Drawings.{IsDrawing};

use crate::chart::Chart;
use crate::glyphs::{ASCII, LINES};
use crate::html::html_of;
use crate::mermaid::mermaid_of;
use crate::svg::svg_of;
use crate::text::text_of;
use l4_types::errors::NoMemory;
use std::alloc::Global;

/// A form of a chart.
#[derive(Clone, Copy, Debug, PartialEq, Eq)]
pub enum Form {
    /// Text for a terminal that shows lines.
    Lines,
    /// Text for any terminal.
    Ascii,
    /// A picture, an SVG file that stands alone.
    Svg,
    /// A page, an HTML file that stands alone.
    Html,
    /// A sequence diagram of Mermaid.
    Mermaid,
}

/// Draws a chart in a form. A text is laid out for a terminal of `width` columns.
pub fn drawing_of(
    alloc: Global,
    chart: &Chart<'_, '_>,
    form: Form,
    width: usize,
) -> Result<Vec<u8>, NoMemory>
    ensures { IfOk result (λ drawing.
        IsDrawing form width (drawn_of chart.now) drawing.items) }
{
    match form {
        Form::Lines => text_of(alloc, chart, &LINES, width),
        Form::Ascii => text_of(alloc, chart, &ASCII, width),
        Form::Svg => Ok(svg_of(alloc, chart)?.into_bytes()),
        Form::Html => Ok(html_of(alloc, chart)?.into_bytes()),
        Form::Mermaid => Ok(mermaid_of(alloc, chart)?.into_bytes()),
    }
}
