//! The law of several processors: what is true of every core run, whichever processor takes the
//! next turn and whichever letter is handled first.
//!
//! The steps of its events are a history of the model. No letter under way is refused where it
//! goes. Where the run is at rest, no step but a tick is possible. On one processor the world
//! reached is what that processor has. On several it looks as the processors have their own
//! threads, where no letter is under way and no thread is deleted.
//!
//! All of it is definitions and proofs; the functions have an empty body and name no code. The
//! crates above prove that what their code does is a core run, so a change of representation does
//! not touch this law.
//!
//! ```rust
//! law_of_core_runs(); // from here on: the events of a core run tell a history
//! ```
#![tactic(auto)]

ghost use Rattle.l4_model.specs.Machine.{Machine};
ghost use Rattle.l4_core_model.specs.Runs.{Run, IsMachine, TellsHistories};
ghost use Rattle.l4_core_model.specs.Laws.{IsCoreRun};
ghost use Rattle.l4_refines.specs.Laws.{LettersAreLawful, RestIsStill, IsLawfulRun};

/// On any number of processors, the steps of any core run are a history.
pub fn law_several_processors()
    ensures { (m : Machine) → IsMachine m → TellsHistories m }
{}

/// In any core run the destination can handle the first letter of each pair of processors.
pub fn law_letters_are_lawful()
    ensures { (m : Machine) (r : Run) → IsMachine m → IsCoreRun m r → LettersAreLawful m r.system }
{}

/// On any number of processors, where a core run is at rest, no step but a tick is possible in the
/// world that its steps lead to, now or after any ticks.
pub fn law_rest_is_still()
    ensures { (m : Machine) → IsMachine m → RestIsStill m }
{}

/// All of this of every core run. Its steps are a history, with the laws of histories. No letter
/// under way is refused where it goes. Where the run is at rest, no step but a tick is possible in
/// the world that its history reaches, now or after any ticks. On a machine of one processor that
/// world is what the processor has.
pub fn law_of_core_runs()
    ensures { (m : Machine) (r : Run) → IsMachine m → IsCoreRun m r → IsLawfulRun m r }
{}
