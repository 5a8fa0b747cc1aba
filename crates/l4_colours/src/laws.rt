//! What colours leave as it is.
ghost use Rattle.std.specs.Prelude.{◌≡◌, List, false, true, ℕ};
ghost use Rattle.l4_commands.specs.Files.{may_be_painted};
ghost use Rattle.l4_commands.specs.declared.job.Colours.TheVariants.{Auto, Never};
ghost use Rattle.l4_commands.specs.declared.words.Asked.{Asked as AnyAsked};
ghost use Rattle.l4_colours.specs.Outputs.{is_painted};
ghost use Rattle.l4_colours.specs.Painted.{has_no_escape, painted, shown, without_colours};
ghost use Rattle.l4_colours.specs.declared.outputs.Output.{Output as AnyOutput};

/// To a pipe, to a file, or with `NO_COLOR`, the very text is written, where nobody asks for
/// colours there by a word; so it is with `--color never`, and of objects, pictures, pages and
/// diagrams always.
pub fn law_no_colours_in_a_pipe()
    ensures pipe { (asked : AnyAsked) (output : AnyOutput) (text : List ℕ) → asked.colours ≡ Auto →
        output.is_terminal ≡ false → shown (is_painted asked output) text ≡ text }
    ensures unwanted { (asked : AnyAsked) (output : AnyOutput) (text : List ℕ) →
        asked.colours ≡ Auto → output.is_uncoloured ≡ true →
        shown (is_painted asked output) text ≡ text }
    ensures never { (asked : AnyAsked) (output : AnyOutput) (text : List ℕ) →
        asked.colours ≡ Never → shown (is_painted asked output) text ≡ text }
    ensures unpainted { (asked : AnyAsked) (output : AnyOutput) (text : List ℕ) →
        may_be_painted asked.job ≡ false → shown (is_painted asked output) text ≡ text }
{}

/// Colours change nothing but colours: without its escape sequences a painted text is the text,
/// where that has no escape of its own.
pub fn law_colours_are_all_that_is_added()
    ensures { (text : List ℕ) → has_no_escape text ≡ true →
        without_colours false (painted text) ≡ text }
{}
