//! Core runs as lists of choices, and states of core runs that are alike: what happens in one can
//! happen in the other.
//!
//! Entries of a schedule name each thing that may happen: the letter of any poster, the core's turn
//! though mail is there, a tick to any value. So each core run is the replay of some entries.
//!
//! States are alike that differ in stamps, and in the order of letters of different pairs. They are
//! similar where they differ in numbers of sends too. A thread counts the sends that it begins, and
//! a letter names a send by its number. So a loop that sends comes to no state twice. But only the
//! last send that a thread began can be undecided, and letters of one pair of processors come in
//! order. So no event needs a number to know which send is meant. Without numbers, the states of a
//! loop are few.
//!
//! They are shifted where they differ in how late it is too. Where a loop waits with a time limit,
//! its clock goes on for ever, so it comes to no state twice. But events depend only on how far
//! ahead a deadline is, not on how late it is.
//!
//! A search looks at one of all such states, and reports it by one of the histories that lead
//! there. Any other history gives the same report of each thread, but for the registers of deleted
//! ones, and the same sends wait, but for their numbers.
//!
//! All of it is definitions and proofs; the functions have an empty body.
//!
//! ```rust
//! law_replayed(); // from here on: a core run is the replay of what happened in it
//! ```
#![tactic(auto)]

ghost use Rattle.std.specs.Prelude.{ℕ};
ghost use Rattle.l4_model.specs.Machine.{Machine};
ghost use Rattle.l4_core_model.specs.Laws.{IsCoreRun};
ghost use Rattle.l4_core_model.specs.Runs.{Action, Handles, IsMachine, Run, System, Ticks, Turns};
ghost use Rattle.l4_core_model.specs.Runs.{happens};
ghost use Rattle.l4_bisimilar.specs.Alike.{AreAlike, IsAlike};
ghost use Rattle.l4_bisimilar.specs.Entries.{AreReplayed};
ghost use Rattle.l4_bisimilar.specs.Similar.{AreSimilar, IsSimilar};
ghost use Rattle.l4_bisimilar.specs.Shifted.{AreShifted, GoOnAlike, IsShifted};
ghost use Rattle.l4_bisimilar.specs.InCommon.{EndingsHaveInCommon};

/// Every core run is the replay of the entries that name what happened in it: the same events, so
/// the same history, and the same state at the end.
pub fn law_replayed()
    ensures { (m : Machine) → AreReplayed m }
{}

/// Whatever can happen in one of two alike states can happen in the other one, is told by the same
/// steps, and leads to alike states.
pub fn law_alike()
    ensures { (m : Machine) (g h : System) (e : Action) →
        IsAlike g h → AreAlike (happens m g e) (happens m h e) }
{}

/// Whatever can happen in one of two similar states that core runs lead to can happen in the other
/// one. It is told by the same steps but for the numbers of sends, and leads to similar states.
pub fn law_similar()
    ensures { (m : Machine) (r s : Run) (e : Action) → IsMachine m → IsCoreRun m r →
        IsCoreRun m s → IsSimilar r.system s.system →
        AreSimilar (happens m r.system e) (happens m s.system e) }
{}

/// Whatever can happen in one of two shifted states that core runs lead to can happen in the other
/// one, and leads to shifted states. Where it is a tick, it goes as far in both.
pub fn law_shifted()
    ensures letters { (m : Machine) (r s : Run) (cpu from : ℕ) → IsMachine m → IsCoreRun m r →
        IsCoreRun m s → IsShifted r.system s.system →
        AreShifted (happens m r.system (Handles cpu from)) (happens m s.system (Handles cpu from)) }
    ensures turns { (m : Machine) (r s : Run) (cpu : ℕ) → IsShifted r.system s.system →
        AreShifted (happens m r.system (Turns cpu)) (happens m s.system (Turns cpu)) }
    ensures ticks { (m : Machine) (r s : Run) (cpu to then : ℕ) → IsShifted r.system s.system →
        GoOnAlike r.system s.system cpu to then →
        AreShifted (happens m r.system (Ticks cpu to)) (happens m s.system (Ticks cpu then)) }
{}

/// Two core runs that end at rest in similar states tell each thread alike, or as deleted. They
/// leave the same sends waiting, but for their numbers and the clocks at which they began.
pub fn law_in_common()
    ensures { (m : Machine) → IsMachine m → EndingsHaveInCommon m }
{}
