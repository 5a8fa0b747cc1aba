//! Which outputs have colours, and how lines go to them.
ghost use Rattle.std.specs.Prelude.{◌≡◌, IfOk, MatchResult, false, flat_map, true};
ghost use Rattle.l4_streams.specs.Streams.{MayTake};
ghost use Rattle.l4_colours.specs.Outputs.{is_painted, shows_colours};
ghost use Rattle.l4_colours.specs.Painted.{shown, TakesShown};

use crate::painting::paint;
use l4_commands::job::Colours;
use l4_commands::words::Asked;
use l4_streams::streams::{NotWritten, Sink};
use std::alloc::{AllocError, Global};
use std::io::Write;

/// What is known of an output.
#[derive(Clone, Copy, Debug, PartialEq, Eq)]
pub struct Output {
    /// Whether it is a terminal, and not one that `TERM` calls dumb.
    pub is_terminal: bool,
    /// Whether `NO_COLOR` is set to anything but an empty text.
    pub is_uncoloured: bool,
}

/// Whether an output shows colours. Who asks for them by a word has them everywhere.
pub fn shows_colours(colours: Colours, output: Output) -> bool
    ensures { result ≡ shows_colours colours output }
{
    match colours {
        Colours::Auto => output.is_terminal && !output.is_uncoloured,
        Colours::Always => true,
        Colours::Never => false,
    }
}

/// Whether the lines of what is asked for are painted on an output.
pub fn is_painted(asked: &Asked<'_>, output: Output) -> bool
    ensures { result ≡ is_painted asked.now output }
{
    asked.job.may_be_painted() && shows_colours(asked.colours, output)
}

/// An output whose lines are painted, where it has colours. Each call of `put` has whole lines, or
/// what it has of a line is painted by itself.
#[derive(Drop)]
pub struct PaintedOutput<W> {
    out: W,
    alloc: Global,
    has_colours: bool,
}

impl<W: Write> PaintedOutput<W> {
    /// The output, painted where it has colours.
    pub fn new(alloc: Global, out: W, has_colours: bool) -> Self
        ensures out { result.out ≡ out }
        ensures colours { result.has_colours ≡ has_colours }
    {
        PaintedOutput {
            out,
            alloc,
            has_colours,
        }
    }

    /// The output, as it was written to.
    pub fn into_output(self) -> W
        ensures { result ≡ self.out }
    {
        self.out
    }

    // Writes a text, painted where the output has colours, and flushes.
    fn write(&mut self, text: &[u8]) -> Result<(), NotWritten>
        ensures taken { MatchResult result
            (λ _. MayTake (W.contents self.old.out) (W.contents self.new.out)
            (shown self.old.has_colours text.now) true)
            (λ _. MayTake (W.contents self.old.out) (W.contents self.new.out)
            (shown self.old.has_colours text.now) false) }
        ensures same { self.new.has_colours ≡ self.old.has_colours }
    {
        if self.has_colours {
            paint(&mut self.out, text)
        } else {
            self.out.put(text)
        }
    }

    // A line may go over several texts, so these are joined first. Where memory for that is
    // refused, nothing is written.
    fn write_parts(&mut self, parts: &[&str]) -> Result<(), NotWritten>
        ensures taken { MatchResult result
            (λ _. MayTake (W.contents self.old.out) (W.contents self.new.out)
            (shown self.old.has_colours (flat_map (λ part. part.now) parts.now)) true)
            (λ _. MayTake (W.contents self.old.out) (W.contents self.new.out)
            (shown self.old.has_colours (flat_map (λ part. part.now) parts.now)) false) }
        ensures same { self.new.has_colours ≡ self.old.has_colours }
    {
        if !self.has_colours {
            return self.out.put_parts(parts);
        }
        let Ok(joined) = joined(self.alloc, parts) else {
            return Err(NotWritten);
        };
        paint(&mut self.out, joined.as_slice())
    }
}

impl<W: Write> Sink for PaintedOutput<W> {
    ghost use Rattle.std.proofs.Common.{refl, ◌∙◌};
    ghost use Rattle.l4_colours.specs.Inner.Taking.{shown_in_order, shown_nothing};

    ghost takes = { λ old new bytes all. TakesShown (W.contents old.out) (W.contents new.out)
        old.has_colours new.has_colours bytes all };

    #[tactic(auto, using(crate::proofs::Written::in_one))]
    fn put(&mut self, bytes: &[u8]) -> Result<(), NotWritten> {
        self.write(bytes)
    }

    #[tactic(auto, using(crate::proofs::Written::in_one))]
    fn put_parts(&mut self, parts: &[&str]) -> Result<(), NotWritten> {
        self.write_parts(parts)
    }

    ghost nothing = { λ x. shown_nothing (W.contents x.out) x.has_colours };

    ghost joined = { λ a b c front back all. shown_in_order (W.contents a.out) (W.contents b.out)
        (W.contents c.out) a.has_colours b.has_colours c.has_colours front back all };
}

// The texts, one behind the other.
fn joined(alloc: Global, parts: &[&str]) -> Result<Vec<u8>, AllocError>
    ensures { IfOk result (λ joined. joined.items ≡ flat_map (λ part. part.now) parts.now) }
{
    let mut joined = Vec::new(alloc);
    for part in parts {
        joined.extend_from_slice(part.as_bytes())?;
    }
    Ok(joined)
}
