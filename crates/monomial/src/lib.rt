#![tactic(auto)]

ghost use Rattle.std.specs.Prelude.{◌≡◌, ℕ, ◌≤◌};
ghost use Rattle.ring.specs.Rings.{power};
ghost use Rattle.ring.specs.Roots.{RootOf};

use crate::exponentiation::exp_small;
use ring::Ring;

pub mod exponentiation;
pub mod residues;

/// The S-box: a ring with an exponent D from 3 to 255, and the power with this exponent.
pub trait InjectiveMonomial: Ring {
    const D: u8;

    ghost D: { ℕ };

    ghost least: { 3 ≤ D };

    /// The D-fold product.
    fn injective_exp_n(self) -> Self
        ensures { Self.value result ≡ power Self.ring D (Self.value self) }
    {
        exp_small(self, Self::D)
    }
}

/// A rooted S-box: the root undoes the power and the power undoes the root, at every value.
pub trait PermutationMonomial: InjectiveMonomial {
    fn injective_exp_root_n(self) -> Self
        ensures { RootOf Self.ring Self.D (Self.value self) (Self.value result) };
}
