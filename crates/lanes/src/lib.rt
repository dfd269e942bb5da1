#![tactic(auto)]

ghost use Rattle.lanes.specs.Fours.{fours, each, each_hom};
ghost use Rattle.lanes.specs.Lanes.{lanes};
ghost use Rattle.std.specs.Prelude.{◌≡◌, refl};

use algebra::Algebra;
use field::Field;
use monomial::{InjectiveMonomial, PermutationMonomial};
use ring::Ring;
use std::ops::{Add, Mul, Neg, Sub};

/// Four elements abreast.
#[derive(Clone, Copy, PartialEq, Eq, Debug)]
pub struct Lanes<T> {
    pub a: T,
    pub b: T,
    pub c: T,
    pub d: T,
}

// For four named parts, as in `pairs` for two: of an array of a type parameter every caller would owe that it fits in memory.
impl<T: Copy> Lanes<T> {
    // One element in every lane.
    fn splat(x: T) -> Lanes<T>
        ensures a { result.a ≡ x }
        ensures b { result.b ≡ x }
        ensures c { result.c ≡ x }
        ensures d { result.d ≡ x }
    {
        Lanes {
            a: x,
            b: x,
            c: x,
            d: x,
        }
    }

    // What the step makes of each lane alone.
    fn map<U, S: Fn(T) -> U>(self, step: S) -> Lanes<U>
        requires { S.IsAlwaysCallable step }
        ensures a { S.post step self.a result.a }
        ensures b { S.post step self.b result.b }
        ensures c { S.post step self.c result.c }
        ensures d { S.post step self.d result.d }
    {
        Lanes {
            a: step(self.a),
            b: step(self.b),
            c: step(self.c),
            d: step(self.d),
        }
    }

    // What the step makes of each lane with that of the other.
    fn zip<U: Copy, V, S: Fn(T, U) -> V>(self, other: Lanes<U>, step: S) -> Lanes<V>
        requires { S.IsAlwaysCallable step }
        ensures a { S.post step self.a other.a result.a }
        ensures b { S.post step self.b other.b result.b }
        ensures c { S.post step self.c other.c result.c }
        ensures d { S.post step self.d other.d result.d }
    {
        Lanes {
            a: step(self.a, other.a),
            b: step(self.b, other.b),
            c: step(self.c, other.c),
            d: step(self.d, other.d),
        }
    }
}

impl<F: Ring> Add for Lanes<F> {
    type Output = Lanes<F>;

    ghost add_gives = { λ x y r. lanes F.value r ≡ (fours F.ring).add (lanes F.value x) (lanes F.value y) };

    fn add(self, other: Lanes<F>) -> Lanes<F> {
        self.zip(other, |x, y| x + y)
    }
}

impl<F: Ring> Sub for Lanes<F> {
    type Output = Lanes<F>;

    ghost sub_gives = { λ x y r. lanes F.value r ≡ (fours F.ring).add (lanes F.value x) ((fours F.ring).neg (lanes F.value y)) };

    fn sub(self, other: Lanes<F>) -> Lanes<F> {
        self.zip(other, |x, y| x - y)
    }
}

impl<F: Ring> Neg for Lanes<F> {
    type Output = Lanes<F>;

    ghost neg_gives = { λ x r. lanes F.value r ≡ (fours F.ring).neg (lanes F.value x) };

    fn neg(self) -> Lanes<F> {
        self.map(|x| -x)
    }
}

impl<F: Ring> Mul for Lanes<F> {
    type Output = Lanes<F>;

    ghost mul_gives = { λ x y r. lanes F.value r ≡ (fours F.ring).mul (lanes F.value x) (lanes F.value y) };

    fn mul(self, other: Lanes<F>) -> Lanes<F> {
        self.zip(other, |x, y| x * y)
    }
}

impl<F: Ring> Ring for Lanes<F> {
    ghost ring = { fours F.ring };

    ghost value = { lanes F.value };

    ghost zero = { record { a = F.zero; b = F.zero; c = F.zero; d = F.zero } };

    fn zero() -> Lanes<F> {
        Lanes::splat(F::zero())
    }

    fn one() -> Lanes<F> {
        Lanes::splat(F::one())
    }

    type Sum = Lanes<F::Sum>;

    ghost total = { lanes F.total };

    fn sum_none() -> Lanes<F::Sum> {
        Lanes::splat(F::sum_none())
    }

    fn sum_more(sum: Lanes<F::Sum>, left: Lanes<F>, right: Lanes<F>) -> Lanes<F::Sum> {
        let factors = left.zip(right, |x, y| (x, y));
        sum.zip(factors, |s, (x, y)| F::sum_more(s, x, y))
    }

    fn sum_done(sum: Lanes<F::Sum>) -> Lanes<F> {
        sum.map(|s| F::sum_done(s))
    }

    ghost zero_law = { λ i. each F.ring (F.zero_law i) };

    ghost can_add_law = { λ x y. tt };

    ghost can_sub_law = { λ x y. tt };

    ghost can_mul_law = { λ x y. tt };

    ghost can_neg_law = { λ x. tt };

    ghost add_law = { λ x y r h. h };

    ghost sub_law = { λ x y r h. h };

    ghost mul_law = { λ x y r h. h };

    ghost neg_law = { λ x r h. h };
}

// A field element enters in every lane.
impl<F: Field> From<F> for Lanes<F> {
    ghost from_gives = { λ x r. lanes F.value r ≡ each F.ring (F.value x) };

    fn from(x: F) -> Lanes<F> {
        Lanes::splat(x)
    }
}

impl<F: Field> Add<F> for Lanes<F> {
    type Output = Lanes<F>;

    ghost add_gives = { λ x y r. lanes F.value r ≡ (fours F.ring).add (lanes F.value x) (each F.ring (F.value y)) };

    fn add(self, other: F) -> Lanes<F> {
        self.map(|x| x + other)
    }
}

impl<F: Field> Mul<F> for Lanes<F> {
    type Output = Lanes<F>;

    ghost mul_gives = { λ x y r. lanes F.value r ≡ (fours F.ring).mul (lanes F.value x) (each F.ring (F.value y)) };

    fn mul(self, other: F) -> Lanes<F> {
        self.map(|x| x * other)
    }
}

impl<F: Field> Algebra<F> for Lanes<F> {
    ghost image = { λ x. record { a = x; b = x; c = x; d = x } };

    fn mixed_sum_more(sum: Lanes<F::Sum>, element: Lanes<F>, factor: F) -> Lanes<F::Sum> {
        sum.zip(element, |s, x| F::sum_more(s, x, factor))
    }

    ghost base = { (each F.ring, each_hom F.ring, λ x. refl) };

    ghost from_law = { λ x y h. h };

    ghost can_add_base_law = { λ x y. tt };

    ghost can_mul_base_law = { λ x y. tt };

    ghost add_base_law = { λ x y r h. h };

    ghost mul_base_law = { λ x y r h. h };
}

impl<F: InjectiveMonomial> InjectiveMonomial for Lanes<F> {
    const D: u8 = F::D;

    ghost D = { F.D };

    ghost least = { F.least };
}

impl<F: PermutationMonomial> PermutationMonomial for Lanes<F> {
    fn injective_exp_root_n(self) -> Lanes<F> {
        self.map(|x| x.injective_exp_root_n())
    }
}
