//! Sets of processors.
ghost use Rattle.std.specs.Prelude.{ℕ, ◌≡◌, ◌<◌, ◌≤◌, ◌==◌, ◌||◌, false, true};
ghost use Rattle.l4_sets.specs.Inner.Sets.{has, most};

use std::marker::Model;

/// A set of processors, by their numbers below 32.
#[derive(Clone, Copy, PartialEq, Eq, Debug)]
pub struct Processors {
    bits: u32,
}

impl Model for Processors {
    ghost use Rattle.std.specs.Prelude.{ℕ};

    ghost Value = { ℕ };

    ghost view = { λ p. p.bits };

    ghost inverse = { λ n. record { bits = n } };
}

impl Processors {
    /// The empty set.
    pub fn none() -> Processors
        ensures { (cpu : ℕ) → has result cpu ≡ false }
    {
        Processors { bits: 0 }
    }

    /// The set of one processor.
    pub fn one(cpu: u8) -> Processors
        requires { cpu < most }
        ensures { (other : ℕ) → has result other ≡ (cpu == other) }
    {
        Processors { bits: 1 << cpu }
    }

    /// All processors from a number on.
    pub fn from(first: u8) -> Processors
        requires { first < most }
        ensures { (cpu : ℕ) → first ≤ cpu → cpu < most → has result cpu ≡ true }
    {
        Processors {
            bits: u32::MAX - ((1 << first) - 1),
        }
    }

    /// Whether a processor is in.
    pub fn has(self, cpu: u8) -> bool
        requires { cpu < most }
        ensures { result ≡ has self cpu }
    {
        self.bits >> cpu & 1 == 1
    }

    /// The processors of both sets.
    pub fn union(self, other: Processors) -> Processors
        ensures { (cpu : ℕ) → has result cpu ≡ (has self cpu || has other cpu) }
    {
        Processors {
            bits: self.bits | other.bits,
        }
    }
}
