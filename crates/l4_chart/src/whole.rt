//! The chart of a whole history as text.
ghost use Rattle.std.specs.Prelude.{◌≡◌, IfOk};
ghost use Rattle.l4_model.specs.History.{IsHistory};
ghost use Rattle.l4_chart.specs.Whole.{glyphs_of, whole_text};

use crate::chart::Chart;
use crate::glyphs::{ASCII, Glyphs, LINES};
use crate::listing::Listing;
use crate::text::text_of;
use crate::window::Window;
use l4_history::history::History;
use l4_script::machine::Machine;
use l4_types::errors::NoMemory;
use std::alloc::Global;

/// How a chart is written as text.
#[derive(Clone, Copy, Debug, PartialEq, Eq)]
pub struct TextForm {
    /// Whether it has characters of ASCII alone, for a terminal that shows no lines.
    pub is_ascii: bool,
    /// The width of the terminal in columns.
    pub width: usize,
    /// Whether it is told what each step changes in registers.
    pub has_registers: bool,
}

fn glyphs_of(form: TextForm) -> &'static Glyphs
    ensures { result.now ≡ glyphs_of form }
{
    if form.is_ascii { &ASCII } else { &LINES }
}

/// The chart of all steps of a history, with all threads, as text. `listing` is that of the machine's
/// text.
///
/// `NoMemory`: memory was refused.
pub fn whole_text(
    alloc: Global,
    machine: &Machine,
    listing: &Listing<'_>,
    history: &History,
    form: TextForm,
) -> Result<Vec<u8>, NoMemory>
    requires { IsHistory machine.now history.now.steps }
    ensures { IfOk result (λ text.
        text.items ≡ whole_text machine.now listing.now history.now.steps form) }
{
    let window = Window::new(1, history.len(), None, form.has_registers, false);
    let chart = Chart::new(alloc, machine, listing, history, &window)?;
    text_of(alloc, &chart, glyphs_of(form), form.width)
}
