//! Nothing of a text of expectations is lost, and nothing that a report has is refused.
ghost use Rattle.std.specs.Prelude.{◌≡◌, false, true, List, None, Some, ℕ, Ok};
ghost use Rattle.std.specs.List.{list_all};
ghost use Rattle.l4_model.specs.History.{reached, view, waiting};
ghost use Rattle.l4_model.specs.Machine.{Machine};
ghost use Rattle.l4_model.specs.Steps.{Step};
ghost use Rattle.l4_model.specs.World.{World};
ghost use Rattle.l4_lines.specs.Lines.{are_rest, has_line, lines_of};
ghost use Rattle.l4_reports.specs.ReportLines.{report_text};
ghost use Rattle.l4_script.specs.Versions.{machine_of_text};
ghost use Rattle.l4_trace.specs.Lines.{has_line as can_be_traced};
ghost use Rattle.l4_types.specs.declared.reports.Ending.{Ending};
ghost use Rattle.l4_words.specs.Words.{words_in};
ghost use Rattle.l4_expect.specs.Expected.{Expected, expectations_of, expected_from, expected_in};
ghost use Rattle.l4_expect.specs.Expected.{line_again};
ghost use Rattle.l4_expect.specs.Judging.{wrong_asked};
ghost use Rattle.l4_expect.specs.declared.judging.Scope.{Scope};
ghost use Rattle.l4_expect.specs.declared.judging.Scope.TheVariants.{OneRun};

/// A text without a faulty line expects what each of its lines says, in order, and nothing else.
/// Each such line can be written again from what it expects.
pub fn law_nothing_is_lost()
    ensures all { (scope : Scope) (text : List ℕ) (expected : List Expected) →
        expectations_of scope text ≡ Ok expected → expected ≡ expected_from 1 (lines_of text) }
    ensures again { (number : ℕ) (line : List ℕ) → line_again (expected_in number line) ≡ line }
{}

/// A line that asks for one of a report may be expected, whichever machine text and history it is
/// the report of. So a line that is refused asks for none of any report, or is `..` alone. And each
/// line of a report may be expected itself. (The steps are those of some trace: their sends have
/// numbers below 2^64.)
pub fn law_reported_lines_are_taken()
    ensures { (text : List ℕ) (m : Machine) (h : List Step) (w : World) (ending : Ending)
        (asked : List ℕ) →
        machine_of_text text ≡ Ok m → list_all can_be_traced h ≡ true → reached m h ≡ Some w →
        are_rest (words_in asked) ≡ false →
        has_line asked (report_text (view m w) (waiting m w h) ending) ≡ true →
        wrong_asked OneRun asked ≡ None }
{}
