//! Conditions of worlds by lines of a report, for a search of what no world on the way may meet:
//! which parts of which threads they read.
//!
//! A world tells the lines of a report but the last, which is that of an ending (`world_text`). It
//! meets a condition where it tells each line that is asked for (`meets`). A line reads no more
//! than `reads_of` says (`law_lines_read`): the parts that its words ask for, of each thread that
//! its second word fits, where `*` fits all. Worlds as good as each other meet the same conditions,
//! where no line is one that a search may not ask for (`law_lines_alike`). So a condition of lines
//! is one that `l4_invariants` speaks of.
//!
//! All of it is definitions and proofs; the functions have empty bodies. `l4_always` judges so.
//!
//! ```rust
//! law_lines_read(); // from here on: a condition of lines reads what its lines say
//! ```
#![tactic(auto)]

ghost use Rattle.std.specs.Prelude.{ℕ, ◌≡◌, true, List};
ghost use Rattle.l4_model.specs.Machine.{Machine};
ghost use Rattle.l4_core_model.specs.Runs.{IsMachine};
ghost use Rattle.l4_futures.specs.Inner.Asked.{TellsNoneApart};
ghost use Rattle.l4_invariants.specs.Inner.Reads.{IsReadBy};
ghost use Rattle.l4_condition_lines.specs.Conditions.{may_be_judged, meets, TellsReport};
ghost use Rattle.l4_condition_lines.specs.Inner.Reading.{reads_of};

/// A condition of lines reads nothing but what its lines say.
pub fn law_lines_read()
    ensures { (m : Machine) (asked : List (List ℕ)) → IsReadBy m (reads_of asked) (meets m asked) }
{}

/// Worlds as good as each other meet the same conditions of lines that may be asked for.
pub fn law_lines_alike()
    ensures { (m : Machine) (asked : List (List ℕ)) → may_be_judged asked ≡ true →
        TellsNoneApart (meets m asked) }
{}

/// The lines that a world tells are those of the report of a history that comes to it.
pub fn law_told_lines()
    ensures { (m : Machine) → IsMachine m → TellsReport m }
{}
