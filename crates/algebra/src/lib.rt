#![tactic(auto)]

ghost use Rattle.std.specs.Prelude.{map, ◌≡◌, refl};
ghost use Rattle.ring.specs.Rings.{Hom};
ghost use Rattle.ring.specs.Sums.{dot};

use field::Field;
use ring::Ring;
use std::ops::{Add, Mul};

/// A ring that holds an image of the field F. Adding or multiplying by an element of F means doing so with its image.
/// States are lists of elements of an algebra; constants, matrices and tables are of F.
pub trait Algebra<F: Field>: Ring + From<F> + Add<F, Output = Self> + Mul<F, Output = Self> {
    // the element as which an element of the field enters
    ghost image: { F → Self };

    // Beside `sum_more`, and so `mixed_dot_product` beside `dot_product`, as in the source crate's family:
    // one trait over the second factor would need laws of its own, and every caller a longer bound.

    /// One product of an element with a field element more.
    fn mixed_sum_more(sum: Self::Sum, element: Self, factor: F) -> Self::Sum
        ensures { Self.total result ≡ Self.ring.add (Self.total sum) (Self.ring.mul (Self.value element) (Self.value (image factor))) };

    /// The sum of the products of elements with field elements over the positions that both lists have.
    fn mixed_dot_product(elements: &[Self], factors: &[F]) -> Self
        ensures { Self.value result ≡ dot Self.ring (map Self.value elements.now) (map (λ x. Self.value (image x)) factors.now) }
    {
        // cut to one length, as in `dot_product`
        let count = elements.len().min(factors.len());
        let pairs = elements[..count].iter().zip(&factors[..count]);
        let sum = pairs.fold(Self::sum_none(), |sum, (x, y)| {
            Self::mixed_sum_more(sum, *x, *y)
        });
        Self::sum_done(sum)
    }

    // the image depends on the value alone, and keeps zero, one, sums and products
    ghost base: { (f : F.ring.V → Self.ring.V) × Hom F.ring Self.ring f × ((x : F) → Self.value (image x) ≡ f (F.value x)) };

    ghost from_law: { (x : F) (y : Self) → ⟦<Self as From<F>>⟧.from_gives x y → Self.value y ≡ Self.value (image x) };

    ghost can_add_base_law: { (x : Self) (y : F) → ⟦<Self as Add<F>>⟧.can_add x y };

    ghost can_mul_base_law: { (x : Self) (y : F) → ⟦<Self as Mul<F>>⟧.can_mul x y };

    ghost add_base_law: { (x : Self) (y : F) (r : Self) → ⟦<Self as Add<F>>⟧.add_gives x y r → Self.value r ≡ Self.ring.add (Self.value x) (Self.value (image y)) };

    ghost mul_base_law: { (x : Self) (y : F) (r : Self) → ⟦<Self as Mul<F>>⟧.mul_gives x y r → Self.value r ≡ Self.ring.mul (Self.value x) (Self.value (image y)) };
}

// The field itself, as an algebra over itself.
impl<F: Field> Algebra<F> for F {
    ghost image = { λ x. x };

    fn mixed_sum_more(sum: F::Sum, element: F, factor: F) -> F::Sum {
        F::sum_more(sum, element, factor)
    }

    // a field may have a faster one than the sum of its steps
    fn mixed_dot_product(elements: &[F], factors: &[F]) -> F {
        F::dot_product(elements, factors)
    }

    ghost base = { (λ v. v, record { at_nil = refl; at_one = refl; at_add = λ x y. refl; at_mul = λ x y. refl }, λ x. refl) };

    ghost from_law = { λ x y e i. F.value (e i) };

    ghost can_add_base_law = { F.can_add_law };

    ghost can_mul_base_law = { F.can_mul_law };

    ghost add_base_law = { F.add_law };

    ghost mul_base_law = { F.mul_law };
}
