//! What a script may compute.
ghost use Rattle.std.specs.Prelude.{◌≡◌, ◌%◌, ◌^◌};
ghost use Rattle.l4_model.specs.Rules.{computed};
ghost use Rattle.l4_types.specs.Inner.OperationView.{operation_of};

/// How a word is made of two.
#[derive(Clone, Copy, PartialEq, Eq, Debug)]
pub enum Operation {
    /// Their sum.
    Sum,
}

impl Operation {
    // What it makes of two words, modulo 2^64.
    pub(crate) fn computed(&self, a: u64, b: u64) -> u64
        ensures { result ≡ computed (operation_of self.now) a b % 2 ^ 64 }
    {
        match self {
            Operation::Sum => a.wrapping_add(b),
        }
    }
}
