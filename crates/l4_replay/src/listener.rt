//! What hears the steps of a history, some of them at a time.
ghost use Rattle.std.specs.Prelude.{◌≡◌, ◌++◌, [], List, OnOk, map};
ghost use Rattle.std.proofs.Common.{◌∙◌, ap, append-nil, append_assoc, sym};
ghost use Rattle.l4_model.specs.Steps.{Step as ModelStep};
ghost use Rattle.l4_types.specs.StepView.{step_of};

use l4_history::history::History;
use l4_history::steps::Steps;
use l4_types::errors::NoMemory;
use l4_types::steps::Step;

/// What hears the steps of a history in order, some of them at a time.
pub trait Listener {
    /// What it may have become once it has heard these steps.
    ghost hears: { (old : Self) → List ModelStep → (new : Self) → Type 0 };

    /// Hears the steps that come next. `NoMemory`: memory was refused, and it may have heard some.
    fn hear(&mut self, steps: Steps<'_>) -> Result<(), NoMemory>
        ensures { OnOk result (hears self.old steps.entry self.new) };

    /// Hearing no steps changes nothing.
    ghost heard_none: { (old : Self) → hears old [] old };

    /// Steps heard in two parts, one behind the other, are heard as one part.
    ghost heard_both: { (old between new : Self) (first second : List ModelStep) →
        hears old first between → hears between second new → hears old (first ++ second) new };
}

/// A history appends the steps that it hears.
impl Listener for History {
    ghost hears = { λ old steps new. new.steps ≡ old.steps ++ steps };

    ghost heard_none = { λ old. sym (append-nil old.steps) };

    ghost heard_both = { λ old between new first second one two.
        two ∙ ap (λ (steps : List ModelStep). steps ++ second) one ∙
        append_assoc old.steps first second };

    fn hear(&mut self, steps: Steps<'_>) -> Result<(), NoMemory> {
        self.extend(&steps)
    }
}

/// A vector appends the steps that it hears.
impl Listener for Vec<Step> {
    ghost hears = { λ old steps new. map step_of new.items ≡ map step_of old.items ++ steps };

    ghost heard_none = { λ old. sym (append-nil (map step_of old.items)) };

    ghost heard_both = { λ old between new first second one two.
        two ∙ ap (λ (steps : List ModelStep). steps ++ second) one ∙
        append_assoc (map step_of old.items) first second };

    fn hear(&mut self, steps: Steps<'_>) -> Result<(), NoMemory> {
        for step in steps {
            self.push(step.to_step())?;
        }
        Ok(())
    }
}
