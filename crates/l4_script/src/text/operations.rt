//! How lines name operations.
ghost use Rattle.std.specs.Prelude.{◌≡◌};
ghost use Rattle.std.specs.Option.{option_map};
ghost use Rattle.l4_types.specs.Inner.OperationView.{operation_of};
ghost use Rattle.l4_script.specs.Operations.{operation_named};

use super::statements::is;
use l4_types::operations::Operation;

/// The operation whose lines begin with this word. None where no operation's lines do.
#[inline(always)]
#[tactic(auto, unfolding(crate::specs::Operations::operation_named))]
pub fn operation(name: &[u8]) -> Option<Operation>
    ensures { option_map operation_of result ≡ operation_named name.now }
{
    if is(name, b"add") {
        return Some(Operation::Sum);
    }
    None
}
