//! Commutative rings: what code sees of them; definitions in specs/ and lemmas in proofs/ for the crates above.
#![tactic(auto)]

ghost use Rattle.std.specs.Prelude.{◌≡◌, map};
ghost use Rattle.ring.specs.Rings.{RingOn};
ghost use Rattle.ring.specs.Sums.{dot};

use std::ops::{Add, Mul, Neg, Sub};

/// Elements that mean values of a commutative ring.
/// Laws and contracts speak of the values, so several elements may mean one value.
pub trait Ring: Copy
    + Add<Self, Output = Self>
    + Sub<Self, Output = Self>
    + Mul<Self, Output = Self>
    + Neg<Output = Self> {
    ghost ring: { RingOn };

    ghost value: { Self → ring.V };

    // the element that `zero` answers
    ghost zero: { Self };

    /// The element that means zero.
    fn zero() -> Self
        ensures element { result ≡ zero }
        ensures nil { value result ≡ ring.nil };

    /// The element that means one.
    fn one() -> Self
        ensures { value result ≡ ring.one };

    /// A sum of products that need not be reduced yet.
    type Sum: Copy;

    ghost total: { Self.Sum → ring.V };

    /// The sum of no products.
    fn sum_none() -> Self::Sum
        ensures { total result ≡ ring.nil };

    /// One product more.
    fn sum_more(sum: Self::Sum, left: Self, right: Self) -> Self::Sum
        ensures { total result ≡ ring.add (total sum) (ring.mul (value left) (value right)) };

    /// The element that the sum comes to.
    fn sum_done(sum: Self::Sum) -> Self
        ensures { value result ≡ total sum };

    /// The sum of the products over the positions that both lists have.
    fn dot_product(left: &[Self], right: &[Self]) -> Self
        ensures { value result ≡ dot ring (map value left.now) (map value right.now) }
    {
        // cut to one length: a walk over two lists that may end apart tests both ends at each step
        let count = left.len().min(right.len());
        let pairs = left[..count].iter().zip(&right[..count]);
        let sum = pairs.fold(Self::sum_none(), |sum, (x, y)| Self::sum_more(sum, *x, *y));
        Self::sum_done(sum)
    }

    ghost zero_law: { value zero ≡ ring.nil };

    ghost can_add_law: { (x y : Self) → Self.can_add x y };

    ghost can_sub_law: { (x y : Self) → Self.can_sub x y };

    ghost can_mul_law: { (x y : Self) → Self.can_mul x y };

    ghost can_neg_law: { (x : Self) → Self.can_neg x };

    ghost add_law: { (x y r : Self) → Self.add_gives x y r → value r ≡ ring.add (value x) (value y) };

    ghost sub_law: { (x y r : Self) → Self.sub_gives x y r → value r ≡ ring.add (value x) (ring.neg (value y)) };

    ghost mul_law: { (x y r : Self) → Self.mul_gives x y r → value r ≡ ring.mul (value x) (value y) };

    ghost neg_law: { (x r : Self) → Self.neg_gives x r → value r ≡ ring.neg (value x) };
}
