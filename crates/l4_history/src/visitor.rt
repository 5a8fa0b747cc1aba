//! What the steps of a history are shown to.
ghost use Rattle.l4_model.specs.Steps.{Step as ModelStep};
ghost use Rattle.l4_types.specs.StepView.{seen};

use l4_types::step_ref::StepRef;

/// What is shown the steps of a history, one after another. A method that is inlined is compiled for
/// each kind of steps by itself.
pub trait Visitor {
    /// Whether a step may be shown to it.
    ghost is_ready: { Self → Type 0 };

    /// What it may have become once it has seen this step.
    ghost sees: { (old : Self) → ModelStep → (new : Self) → Type 0 };

    /// Sees a step.
    fn visit(&mut self, step: StepRef<'_>)
        requires { is_ready self.old }
        ensures { sees self.old (seen step.entry) self.new };
}
