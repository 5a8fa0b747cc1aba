//! Where processors are at rest, no finite period stands but zero.
//!
//! A processor arms a deadline for each receive phase and each send of its threads whose period is
//! finite and not zero. At rest none is armed and no letter is under way. So no such period stands
//! at home, nor in the world, which has phases and sends as homes do. The world to which a core run
//! comes is still then whatever its clocks are, and not only since these are at their end
//! (`law_still_untimed` of `l4_worlds`).
//!
//! All of it is definitions and proofs; the function has an empty body.
//!
//! ```rust
//! law_rest_is_untimed(); // from here on: no core run comes to rest while a finite period stands
//! ```
#![tactic(auto)]

ghost use Rattle.l4_model.specs.Machine.{Machine};
ghost use Rattle.l4_core_model.specs.Runs.{Run, IsMachine};
ghost use Rattle.l4_core_model.specs.Laws.{IsCoreRun};
ghost use Rattle.l4_rests.specs.Inner.Rests.{RestIsUntimed, RestInOrderIsUntimed};

/// Where a core run is at rest, no period that is finite and not zero stands in the world that its
/// steps lead to, in the order told or in order of stamp.
pub fn law_rest_is_untimed()
    ensures told { (m : Machine) (r : Run) → IsMachine m → IsCoreRun m r → RestIsUntimed m r }
    ensures in_order { (m : Machine) (r : Run) → IsMachine m → IsCoreRun m r →
        RestInOrderIsUntimed m r }
{}
