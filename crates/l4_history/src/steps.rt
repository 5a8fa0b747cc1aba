//! The steps of a history, one after another.
ghost use Rattle.std.specs.Prelude.{◌≡◌, ◌⊎◌, ◌+◌, ◌<◌, ◌≤◌, ◌↔◌, [], ◌∷◌, ◌++◌, IsTrue, length, take, drop};
ghost use Rattle.std.specs.Iterator.{YieldsFirstBy, item_count};
ghost use Rattle.l4_model.specs.Steps.{Step as ModelStep};
ghost use Rattle.l4_types.specs.StepView.{seen};

use crate::history::History;
use crate::visitor::Visitor;
use l4_types::step_ref::StepRef;
use std::marker::Model;

/// Iterates over steps of a history in order, without copying their words.
#[derive(Drop)]
pub struct Steps<'a> {
    pub(crate) history: &'a History,
    pub(crate) next: usize,
    pub(crate) end: usize,
}

impl<'a> Model for Steps<'a> {
    ghost use Rattle.std.specs.Prelude.{◌≤◌, List, length, take, drop};
    ghost use Rattle.l4_model.specs.Steps.{Step};

    ghost Value = { List Step };

    // The steps that are still to come.
    ghost view = { λ s. drop s.next (take s.end s.history.now.steps) };

    ghost invariant = { λ s. s.end ≤ length s.history.now.steps };
}

impl<'a> Steps<'a> {
    /// Whether there is no step.
    #[inline(always)]
    pub fn is_empty(&self) -> bool
        ensures { IsTrue result ↔ (self.now ≡ []) }
    {
        self.next >= self.end
    }

    /// Shows the last of the steps, and takes it out.
    #[inline(always)]
    pub fn show_last<V: Visitor>(&mut self, visitor: &mut V)
        requires some { 0 < length self.old }
        requires ready { V.is_ready visitor.old }
        ensures { (step : ModelStep) × (self.old ≡ self.new ++ step ∷ []) ×
            V.sees visitor.old step visitor.new }
    {
        self.end -= 1;
        self.history.show(self.end, visitor);
    }

    /// The first of the steps, at most so many, which are taken out.
    #[inline(always)]
    pub fn take_first(&mut self, most: usize) -> Steps<'a>
        ensures first { result ≡ take most self.old }
        ensures left { self.new ≡ drop most self.old }
    {
        let first = self.next;
        self.next = end_of_first(first, self.end, most);
        Steps {
            history: self.history,
            next: first,
            end: self.next,
        }
    }
}

// Where the first steps end, at most so many of those between two places.
#[inline(always)]
fn end_of_first(next: usize, end: usize, most: usize) -> usize
    ensures { ((result ≡ end) × (end ≤ next + most)) ⊎
        ((result ≡ next + most) × (next + most ≤ end)) }
{
    if next < end && end - next > most {
        next + most
    } else {
        end
    }
}

impl<'a> Iterator for Steps<'a> {
    type Item = StepRef<'a>;

    ghost next_gives = { YieldsFirstBy seen (λ steps. steps) };

    ghost remaining = { item_count (λ steps. steps) };

    fn next(&mut self) -> Option<StepRef<'a>> {
        let place = self.next;
        if place >= self.end {
            return None;
        }
        self.next = place + 1;
        Some(self.history.step(place))
    }
}
