//! The states of core runs: their codes, and the choices that lead on.
//!
//! A code has all of a state but stamps, numbers of sends, how late it is, and the order of letters
//! of different pairs of processors. Of the states that core runs lead to, those with the same code
//! are similar: they are shifted (`l4_bisimilar`). Similar states have the same futures, so a search
//! may keep one of them.
//!
//! All of it is definitions and proofs; the functions have an empty body.
//!
//! ```rust
//! law_coded(); // from here on: states with the same code are similar
//! ```
#![tactic(auto)]

ghost use Rattle.std.specs.Prelude.{ℕ, ◌≡◌, List};
ghost use Rattle.l4_model.specs.Machine.{Machine};
ghost use Rattle.l4_core_model.specs.Runs.{IsMachine};
ghost use Rattle.l4_explore.specs.Tries.{AreSchedules, StandsForAll};
ghost use Rattle.l4_states.specs.Inner.Bytes.{bytes_of};
ghost use Rattle.l4_states.specs.Choices.{IsCoded, LeadsEarly, state_after};
ghost use Rattle.l4_states.specs.Inner.Remembered.{AreRemembered};

/// Different lists of numbers have different bytes.
pub fn law_bytes()
    ensures { (ns ms : List ℕ) → bytes_of ns ≡ bytes_of ms → ns ≡ ms }
{}

/// Of the states that core runs lead to, those with the same code are similar, and similar ones
/// have the same code.
pub fn law_coded()
    ensures { (m : Machine) → IsMachine m → IsCoded m }
{}

/// Lists of choices are schedules as a search needs them.
pub fn law_schedules()
    ensures { (m : Machine) → IsMachine m → AreSchedules (state_after m) }
{}

/// A list of choices stands for all lists that lead to a similar state, if it leads to no clock
/// near the limit of clocks.
pub fn law_stands()
    ensures { (m : Machine) (s : List ℕ) → IsMachine m → LeadsEarly m s →
        StandsForAll (state_after m) s }
{}

/// What a choice does is known wherever it reads the same. It reads what its processor knows, and
/// the letters that it takes one of.
pub fn law_remembered()
    ensures { (m : Machine) → IsMachine m → AreRemembered m }
{}
