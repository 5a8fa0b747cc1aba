//! What an answer says of all histories, and of all runs that come to rest, where each ending that
//! was found meets what is expected of it.
//!
//! What is expected has to be lines that may be asked for, as `expectations_of` has them for
//! `Endings` (`law_met_alike` of `l4_common_lines`).
//!
//! All of it is definitions and proofs; the functions have an empty body.
//!
//! ```rust
//! law_each_is_met(); // from here on: what each listed ending meets, every ending meets
//! ```
ghost use Rattle.std.specs.Prelude.{ℕ, ◌≡◌, Bool, true, List, Some, []};
ghost use Rattle.l4_model.specs.Machine.{Machine};
ghost use Rattle.l4_core_model.specs.Runs.{IsMachine};
ghost use Rattle.l4_core_model.specs.Schedules.{Entry, replay_entries};
ghost use Rattle.l4_common_lines.specs.CommonLines.{may_be_asked};
ghost use Rattle.l4_expect.specs.Expected.{Expected};
ghost use Rattle.l4_proc.specs.declared.processor.Processor.{Processor};
ghost use Rattle.l4_machine.specs.Gathered.{IsGathered};
ghost use Rattle.l4_machine.specs.Outcomes.{Findings, IsFoundFor, IsOutcomeOf};
ghost use Rattle.l4_questions.specs.Answers.{IsAnswer};
ghost use Rattle.l4_questions.specs.Met.{EachIsMet, EachRunIsMet, QuietIsMet};
ghost use Rattle.l4_questions.specs.Placed.{IsPlacedAnswer};
ghost use Rattle.l4_questions.specs.PlacedWalked.{IsAnyPlacedAnswer};
ghost use Rattle.l4_questions.specs.declared.question.Question.{Question as AskedQuestion};
ghost use Rattle.l4_questions.specs.declared.question.Wanted.TheVariants.{Whatever};
ghost use Rattle.l4_questions.specs.Beside.{Shown};
ghost use Rattle.l4_questions.specs.Walked.{IsAnyAnswer};

/// Where a search is whole, and each of its endings that is asked for meets what is expected, each
/// that any history of the machine comes to meets it, whatever the scheduler does and whatever time
/// passes. Status 0 says both, where it is not asked how many there are.
pub fn law_each_is_met()
    ensures by_status { (m : Machine) (q : AskedQuestion) (shown : Shown)
        (expected : List Expected) (lines unmet : List ℕ) →
        may_be_asked expected ≡ true → q.wanted ≡ Whatever →
        IsAnyAnswer m q shown (Some expected) lines unmet 0 → EachIsMet m q expected }
    ensures whole { (m : Machine) (q : AskedQuestion) (shown : Shown)
        (expected : List Expected) (lines : List ℕ) (status : ℕ) →
        may_be_asked expected ≡ true →
        (a : IsAnswer m q shown (Some expected) lines [] status) → a.is_whole ≡ true →
        EachIsMet m q expected }
{}

/// So the ending of each run, replay or gathering that comes to rest meets it, on any host, if it is
/// asked for.
pub fn law_each_run_is_met()
    ensures of_run { (m : Machine) (q : AskedQuestion) (expected : List Expected) (most : ℕ)
        (o : Findings) → IsMachine m → EachIsMet m q expected → IsFoundFor m most o →
        QuietIsMet m q expected o }
    ensures of_replay { (m : Machine) (q : AskedQuestion) (expected : List Expected)
        (entries : List Entry) (o : Findings) → IsMachine m → EachIsMet m q expected →
        IsOutcomeOf m (replay_entries m entries) o → QuietIsMet m q expected o }
    ensures of_gathered { (m : Machine) (q : AskedQuestion) (expected : List Expected)
        (processors : List Processor) (o : Findings) → IsMachine m → EachIsMet m q expected →
        IsGathered m processors o → QuietIsMet m q expected o }
{}

/// The same of a search of placed runs, and of each core run that comes to rest and whose ticks go
/// to least deadlines.
pub fn law_each_placed_is_met()
    ensures by_status { (m : Machine) (q : AskedQuestion) (shown : Shown)
        (expected : List Expected) (lines unmet : List ℕ) → IsMachine m →
        may_be_asked expected ≡ true → q.wanted ≡ Whatever →
        IsAnyPlacedAnswer m q shown (Some expected) lines unmet 0 → EachRunIsMet m q expected }
    ensures whole { (m : Machine) (q : AskedQuestion) (shown : Shown)
        (expected : List Expected) (lines : List ℕ) (status : ℕ) → IsMachine m →
        may_be_asked expected ≡ true →
        (a : IsPlacedAnswer m q shown (Some expected) lines [] status) → a.is_whole ≡ true →
        EachRunIsMet m q expected }
{}
