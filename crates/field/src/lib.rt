#![tactic(auto)]

ghost use Rattle.std.specs.Prelude.{◌≡◌, T, ◌↔◌, ◌≢◌};
ghost use Rattle.ring.specs.Rings.{integer};
ghost use Rattle.field.specs.Inverses.{Inverts};

use ring::Ring;

pub mod refusal;
pub mod residue;
pub mod sizes;

/// A ring in which one differs from zero. Elements are equal where they mean one value.
pub trait Field: Ring + Eq {
    /// The n-fold sum of one, negated for a negative n.
    fn from_i64(n: i64) -> Self
        ensures { Self.value result ≡ integer Self.ring n };

    ghost apart: { Self.ring.one ≢ Self.ring.nil };

    ghost eq_law: { (x y : Self) → T (Self.PartialEq.eq x y) ↔ (Self.value x ≡ Self.value y) };
}

/// A field in which every element but zero has an inverse.
pub trait InverseField: Field {
    /// The element whose product with this one is one; there is one exactly where this one is not zero.
    fn inverse(self) -> Option<Self>
        ensures { Inverts Self.ring Self.value (Self.value self) result };
}
