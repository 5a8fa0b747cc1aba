//! What is told is what may happen.
ghost use Rattle.std.specs.Prelude.{◌≡◌, is_some};
ghost use Rattle.l4_model.specs.Machine.{Machine};
ghost use Rattle.l4_core_model.specs.Runs.{System};
ghost use Rattle.l4_core_model.specs.Schedules.{Entry};
ghost use Rattle.l4_states.specs.Choices.{after_entry};
ghost use Rattle.l4_next.specs.Nexts.{next_by};

/// What an entry does is told exactly where a search goes on by that entry.
pub fn law_next()
    ensures { (m : Machine) (g : System) (entry : Entry) →
        is_some (next_by m g entry) ≡ is_some (after_entry m g entry) }
{}
