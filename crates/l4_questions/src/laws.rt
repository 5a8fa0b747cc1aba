//! What an answer says of all histories, and of all core runs that come to rest, though a search
//! looks at one of all that are alike.
//!
//! All of it is definitions and proofs; the functions have an empty body.
//!
//! ```rust
//! law_none_is_reached(); // from here on: after status 0 of `NoEnding` no ending is asked for
//! ```
ghost use Rattle.std.specs.Prelude.{ℕ, ◌≡◌, ◌<◌, Bool, true, List, Option, length};
ghost use Rattle.l4_model.specs.Machine.{Machine};
ghost use Rattle.l4_core_model.specs.Runs.{IsMachine, Run};
ghost use Rattle.l4_core_model.specs.Schedules.{Entry, replay_entries};
ghost use Rattle.l4_model.specs.Steps.{Step};
ghost use Rattle.l4_expect.specs.Expected.{Expected};
ghost use Rattle.l4_persistent.specs.Endings.{AreAllEndings};
ghost use Rattle.l4_invariants.specs.Invariants.{IsNeverMet};
ghost use Rattle.l4_condition_lines.specs.Conditions.{meets};
ghost use Rattle.l4_questions.specs.Always.{IsAlwaysAnswer};
ghost use Rattle.l4_questions.specs.Answers.{NoneIsReached, OneIsReached};
ghost use Rattle.l4_questions.specs.Walked.{IsAnyAnswer};
ghost use Rattle.l4_proc.specs.declared.processor.Processor.{Processor};
ghost use Rattle.l4_machine.specs.Gathered.{IsGathered};
ghost use Rattle.l4_machine.specs.Outcomes.{Findings, IsFoundFor, IsOutcomeOf};
ghost use Rattle.l4_futures.specs.Endings.{AreAllEndings as AreAllWorldEndings};
ghost use Rattle.l4_questions.specs.PlacedWalked.{IsAnyPlacedAnswer};
ghost use Rattle.l4_questions.specs.Quiet.{QuietIsListed, QuietIsNotAsked};
ghost use Rattle.l4_forever.specs.Moves.{IsNeverStuck};
ghost use Rattle.l4_questions.specs.Stuck.{asks_who_is_stuck, counts_at};
ghost use Rattle.l4_questions.specs.Runs.{AsksForLines, ComesToRest, NoneIsAsked, StandsFor};
ghost use Rattle.l4_questions.specs.declared.question.Question.{Question as AskedQuestion};
ghost use Rattle.l4_questions.specs.declared.question.Wanted.TheVariants.{AnEnding, NoEnding};
ghost use Rattle.l4_questions.specs.Beside.{Shown};

/// Status 0, where a question asks that no such ending exist, says that none does: no history of the
/// machine comes to an ending that is asked for, whatever the scheduler does and whatever time
/// passes.
pub fn law_none_is_reached()
    ensures { (m : Machine) (q : AskedQuestion) (shown : Shown)
        (expected : Option (List Expected)) (lines unmet : List ℕ) →
        q.wanted ≡ NoEnding → IsAnyAnswer m q shown expected lines unmet 0 → NoneIsReached m q }
{}

/// Status 0, where a question asks that nothing be stuck, says that no history makes a thread stuck
/// for ever that the question counts, whether the text comes to rest or not.
pub fn law_nobody_is_stuck()
    ensures { (m : Machine) (q : AskedQuestion) (shown : Shown)
        (expected : Option (List Expected)) (lines unmet : List ℕ) →
        asks_who_is_stuck q ≡ true → q.wanted ≡ NoEnding →
        IsAnyAnswer m q shown expected lines unmet 0 → (thread : ℕ) → thread < length m.threads →
        counts_at m q thread ≡ true → IsNeverStuck m thread }
{}

/// Status 0, where a question asks that such an ending exist, says that one does: a history of the
/// machine comes to it.
pub fn law_one_is_reached()
    ensures { (m : Machine) (q : AskedQuestion) (shown : Shown)
        (expected : Option (List Expected)) (lines unmet : List ℕ) →
        q.wanted ≡ AnEnding → IsAnyAnswer m q shown expected lines unmet 0 → OneIsReached m q }
{}

/// Status 0 of `always_answer` says that no history of the machine meets the condition in any world on
/// its way, whatever the scheduler does and whatever time passes.
pub fn law_never_met()
    ensures { (m : Machine) (q : AskedQuestion) (asked : List (List ℕ)) (lines unmet : List ℕ) →
        IsAlwaysAnswer m q asked lines unmet 0 → IsNeverMet m (meets m asked) }
{}

/// Where a search is whole, what a run comes to at rest is a listed ending: of each run, replay or
/// gathering of processors whose ending is quiet, a listed trace leads to a world as good as the one
/// that it came to, by no more steps.
pub fn law_runs_are_listed()
    ensures of_run { (m : Machine) (traces : List (List Step)) (depth most : ℕ) (o : Findings) →
        IsMachine m → AreAllWorldEndings m traces depth true → IsFoundFor m most o →
        QuietIsListed m traces o }
    ensures of_replay { (m : Machine) (traces : List (List Step)) (depth : ℕ)
        (entries : List Entry) (o : Findings) → IsMachine m →
        AreAllWorldEndings m traces depth true → IsOutcomeOf m (replay_entries m entries) o →
        QuietIsListed m traces o }
    ensures of_gathered { (m : Machine) (traces : List (List Step)) (depth : ℕ)
        (processors : List Processor) (o : Findings) → IsMachine m →
        AreAllWorldEndings m traces depth true → IsGathered m processors o →
        QuietIsListed m traces o }
{}

/// So where no history comes to an ending that is asked for, as after status 0 of
/// `law_none_is_reached`, no run, replay or gathering that comes to rest is asked for, on any host.
pub fn law_no_run_is_asked()
    ensures of_run { (m : Machine) (q : AskedQuestion) (most : ℕ) (o : Findings) → IsMachine m →
        NoneIsReached m q → IsFoundFor m most o → QuietIsNotAsked m q o }
    ensures of_replay { (m : Machine) (q : AskedQuestion) (entries : List Entry) (o : Findings) →
        IsMachine m → NoneIsReached m q → IsOutcomeOf m (replay_entries m entries) o →
        QuietIsNotAsked m q o }
    ensures of_gathered { (m : Machine) (q : AskedQuestion) (processors : List Processor)
        (o : Findings) → IsMachine m → NoneIsReached m q → IsGathered m processors o →
        QuietIsNotAsked m q o }
{}

/// Where a search is whole, one of its endings stands for each core run that comes to rest and
/// whose ticks go to least deadlines: it is similar, and a question asks for it exactly where it
/// asks for the run. Where the question has lines, they have to be lines that may be asked for.
pub fn law_asked_of_all()
    ensures { (m : Machine) (q : AskedQuestion) (endings : List (List Entry)) (depth : ℕ) →
        IsMachine m → AsksForLines q → AreAllEndings m endings depth true →
        (r : Run) → ComesToRest m r → StandsFor m q endings r }
{}

/// Status 0 of a search of placed runs, where no such ending should exist, says that no core run
/// that comes to rest, and whose ticks go to least deadlines, is asked for.
pub fn law_none_is_asked()
    ensures { (m : Machine) (q : AskedQuestion) (shown : Shown)
        (expected : Option (List Expected)) (lines unmet : List ℕ) → IsMachine m →
        q.wanted ≡ NoEnding →
        IsAnyPlacedAnswer m q shown expected lines unmet 0 → NoneIsAsked m q }
{}
