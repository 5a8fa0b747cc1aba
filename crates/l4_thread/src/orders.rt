//! Orders of threads.
ghost use Rattle.std.specs.Prelude.{◌≡◌};
ghost use Rattle.l4_types.specs.StepView.{order_kind_of};

use l4_types::ids::GlobalId;
use l4_types::steps::OrderKind;
use std::marker::Model;

/// An order that a thread gave and that is not done yet (manual: ExchangeRegisters, ThreadControl).
#[derive(Clone, Copy, PartialEq, Eq, Debug)]
pub struct PendingOrder {
    target: GlobalId,
    what: OrderKind,
}

impl Model for PendingOrder {
    ghost use Rattle.l4_model.specs.World.{PendingOrder as ModelAsked};
    ghost use Rattle.l4_types.specs.StepView.{order_kind_of};
    ghost use Rattle.l4_thread.specs.Inner.Spelled.{order_kind_from, order_kind_from_of};
    ghost use Rattle.std.proofs.Common.{ap};

    ghost Value = { ModelAsked };

    ghost view = { λ a. record { target = a.target; what = order_kind_of a.what } };

    ghost inverse = { λ a. record { target = a.target; what = order_kind_from a.what } };

    ghost inverse_ok = { λ a h. ap (λ what. record { target = a.target; what = what })
        (order_kind_from_of a.what) };
}

impl PendingOrder {
    /// A cancellation or the deletion of a thread.
    pub fn new(target: GlobalId, what: OrderKind) -> PendingOrder
        ensures { result ≡ record { target = target; what = order_kind_of what } }
    {
        PendingOrder { target, what }
    }

    /// The thread to cancel or delete.
    pub fn target(&self) -> GlobalId
        ensures { result ≡ self.now.target }
    {
        self.target
    }

    /// Whether to cancel phases of it, or to delete it.
    pub fn what(&self) -> OrderKind
        ensures { order_kind_of result ≡ self.now.what }
    {
        self.what
    }
}
