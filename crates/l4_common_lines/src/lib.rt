//! What may be asked of the reports of endings: a search lists one of all endings that are as good
//! as each other, and tells it by one of the histories that come to it.
//!
//! `line_fault` of `l4_lines` refuses a line by which such reports may differ: one that asks for the
//! registers of a deleted thread, or for the number of a send. All other lines they have in common,
//! however long the histories are, and so they meet the same expectations of such lines.
//!
//! All of it is definitions and proofs; the functions have an empty body.
//!
//! ```rust
//! law_lines_in_common(); // from here on: what is asked of one such report is asked of all
//! ```
#![tactic(auto)]

ghost use Rattle.std.specs.Prelude.{ℕ, ◌≡◌, true, List, Ok};
ghost use Rattle.l4_model.specs.Machine.{Machine};
ghost use Rattle.l4_model.specs.World.{World};
ghost use Rattle.l4_expect.specs.Expected.{Expected, expectations_of};
ghost use Rattle.l4_expect.specs.Unmet.{are_met};
ghost use Rattle.l4_expect.specs.declared.judging.Scope.TheVariants.{Endings};
ghost use Rattle.l4_bisimilar.specs.InCommon.{HaveInCommon};
ghost use Rattle.l4_worlds.specs.Bare.{AreAsGood};
ghost use Rattle.l4_common_lines.specs.CommonLines.{may_be_asked, HaveLinesInCommon};
ghost use Rattle.l4_common_lines.specs.CommonLines.{ReportsHaveLinesInCommon};

/// Reports have all lines in common that may be asked for: those of worlds as good as each other,
/// and those of worlds to which core runs come that end at rest in similar states.
pub fn law_lines_in_common()
    ensures of_worlds { (m : Machine) (w v : World) → AreAsGood w v →
        ReportsHaveLinesInCommon m w v }
    ensures of_runs { (m : Machine) (w v : World) → HaveInCommon m w v →
        ReportsHaveLinesInCommon m w v }
{}

/// Such reports meet the same expectations, where each asks for a line that may be asked for. So it
/// is of all that a text expects of endings, where no line of it is faulty.
pub fn law_met_alike()
    ensures alike { (one other : List ℕ) (expected : List Expected) →
        HaveLinesInCommon one other → may_be_asked expected ≡ true →
        are_met one expected ≡ are_met other expected }
    ensures all { (text : List ℕ) (expected : List Expected) →
        expectations_of Endings text ≡ Ok expected → may_be_asked expected ≡ true }
{}
