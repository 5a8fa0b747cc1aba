//! A machine text by its lines, and where in it the instructions of its threads stand.
ghost use Rattle.std.specs.Prelude.{◌≡◌, ◌-◌, [], IfOk, map, slice_index_or};
ghost use Rattle.l4_json.specs.Lines.{all_but_last};
ghost use Rattle.l4_words.specs.Lines.{parts_of};
ghost use Rattle.l4_chart.specs.Listings.{instruction_at, listing_of};

use l4_json::scripts::ScriptLines;
use l4_script::text::second::said_part;
use l4_types::errors::NoMemory;
use l4_words::lines::split_line;
use std::alloc::Global;
use std::marker::Model;

/// An instruction, as it stands in its machine text.
#[derive(Debug, Drop)]
pub struct Instruction<'t> {
    /// The number of its line, counted from 1.
    pub line: u64,
    /// What that line says.
    pub text: &'t [u8],
}

impl<'t> Model for Instruction<'t> {
    ghost use Rattle.l4_chart.specs.Listings.{Instruction as ListedInstruction};

    ghost Value = { ListedInstruction };

    ghost view = { λ i. record { line = i.line; text = i.text.now } };
}

/// A machine text by its lines.
#[derive(Debug, Drop)]
pub struct Listing<'t> {
    lines: Vec<&'t [u8]>,
    scripts: ScriptLines,
}

impl<'t> Model for Listing<'t> {
    ghost use Rattle.std.specs.Prelude.{map};
    ghost use Rattle.l4_chart.specs.Listings.{Listing as TextListing};

    ghost Value = { TextListing };

    ghost view = { λ l. record {
      lines = map (λ line. line.now) l.lines.items;
      scripts = l.scripts;
    } };
}

// The lines of a text. What stands behind the last line end is left out.
fn lines_of<'t>(alloc: Global, text: &'t [u8]) -> Result<Vec<&'t [u8]>, NoMemory>
    ensures { IfOk result (λ lines.
        map (λ line. line.now) lines.items ≡ all_but_last (parts_of text.now)) }
{
    let mut lines = Vec::new(alloc);
    let mut left = text;
    while let Some((line, rest)) = split_line(left) {
        lines.push(line)?;
        left = rest;
    }
    Ok(lines)
}

// A line of a text by its number, counted from 1. There is none of any other number.
fn line_of<'t>(lines: &[&'t [u8]], number: u64) -> &'t [u8]
    ensures { result.now ≡ slice_index_or (map (λ line. line.now) lines.now) (number - 1) [] }
{
    let place = number.saturating_sub(1) as usize;
    lines.get(place).copied().unwrap_or(b"")
}

impl<'t> Listing<'t> {
    /// That of a text that declares a machine.
    ///
    /// `NoMemory`: memory was refused.
    pub fn of(alloc: Global, text: &'t [u8]) -> Result<Listing<'t>, NoMemory>
        ensures { IfOk result (λ listing. listing ≡ listing_of text.now) }
    {
        Ok(Listing {
            lines: lines_of(alloc, text)?,
            scripts: ScriptLines::of(alloc, text)?,
        })
    }

    /// The instruction at a place of the script of a thread, by the places of both, counted from 0.
    /// None has the `end` behind the last one.
    pub fn instruction(&self, thread: usize, place: usize) -> Option<Instruction<'t>>
        ensures { result ≡ instruction_at self.now thread place }
    {
        let line = self.scripts.line(thread, place)?;
        Some(Instruction {
            line,
            text: said_part(line_of(self.lines.as_slice(), line)),
        })
    }
}
