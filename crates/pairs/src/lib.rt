#![tactic(auto)]

ghost use Rattle.pairs.specs.Pairs.{parts};
ghost use Rattle.pairs.specs.Twos.{twos, plain, plain_hom, plain_image};
ghost use Rattle.std.specs.Prelude.{◌≡◌};
ghost use Rattle.std.proofs.Common.{◌∙◌, ap};

use algebra::Algebra;
use field::Field;
use monomial::InjectiveMonomial;
use ring::Ring;
use std::ops::{Add, Mul, Neg, Sub};

/// a + b·u, where u·u is three.
#[derive(Clone, Copy, PartialEq, Eq, Debug)]
pub struct Pair<T> {
    pub a: T,
    pub b: T,
}

// For two named parts, as in `lanes` for four: of an array of a type parameter every caller would owe that it fits in memory.
impl<T: Copy> Pair<T> {
    // What the step makes of each part alone.
    fn map<U, S: Fn(T) -> U>(self, step: S) -> Pair<U>
        requires { S.IsAlwaysCallable step }
        ensures a { S.post step self.a result.a }
        ensures b { S.post step self.b result.b }
    {
        Pair {
            a: step(self.a),
            b: step(self.b),
        }
    }

    // What the step makes of each part with that of the other.
    fn zip<U: Copy, V, S: Fn(T, U) -> V>(self, other: Pair<U>, step: S) -> Pair<V>
        requires { S.IsAlwaysCallable step }
        ensures a { S.post step self.a other.a result.a }
        ensures b { S.post step self.b other.b result.b }
    {
        Pair {
            a: step(self.a, other.a),
            b: step(self.b, other.b),
        }
    }
}

impl<F: Ring> Add for Pair<F> {
    type Output = Pair<F>;

    ghost add_gives = { λ x y r. parts F.value r ≡ (twos F.ring).add (parts F.value x) (parts F.value y) };

    fn add(self, other: Pair<F>) -> Pair<F> {
        self.zip(other, |x, y| x + y)
    }
}

impl<F: Ring> Sub for Pair<F> {
    type Output = Pair<F>;

    ghost sub_gives = { λ x y r. parts F.value r ≡ (twos F.ring).add (parts F.value x) ((twos F.ring).neg (parts F.value y)) };

    fn sub(self, other: Pair<F>) -> Pair<F> {
        self.zip(other, |x, y| x - y)
    }
}

impl<F: Ring> Neg for Pair<F> {
    type Output = Pair<F>;

    ghost neg_gives = { λ x r. parts F.value r ≡ (twos F.ring).neg (parts F.value x) };

    fn neg(self) -> Pair<F> {
        self.map(|x| -x)
    }
}

impl<F: Field> Mul for Pair<F> {
    type Output = Pair<F>;

    ghost mul_gives = { λ x y r. parts F.value r ≡ (twos F.ring).mul (parts F.value x) (parts F.value y) };

    fn mul(self, other: Pair<F>) -> Pair<F> {
        let three = F::from_i64(3);
        Pair {
            a: self.a * other.a + three * (self.b * other.b),
            b: self.a * other.b + self.b * other.a,
        }
    }
}

impl<F: Field> Ring for Pair<F> {
    ghost ring = { twos F.ring };

    ghost value = { parts F.value };

    ghost zero = { record { a = F.zero; b = F.zero } };

    fn zero() -> Pair<F> {
        Pair {
            a: F::zero(),
            b: F::zero(),
        }
    }

    fn one() -> Pair<F> {
        Pair::from(F::one())
    }

    type Sum = Pair<F::Sum>;

    ghost total = { parts F.total };

    fn sum_none() -> Pair<F::Sum> {
        Pair {
            a: F::sum_none(),
            b: F::sum_none(),
        }
    }

    fn sum_more(sum: Pair<F::Sum>, left: Pair<F>, right: Pair<F>) -> Pair<F::Sum> {
        let three = F::from_i64(3);
        let a = F::sum_more(sum.a, left.a, right.a);
        let b = F::sum_more(sum.b, left.a, right.b);
        Pair {
            a: F::sum_more(a, three * left.b, right.b),
            b: F::sum_more(b, left.b, right.a),
        }
    }

    fn sum_done(sum: Pair<F::Sum>) -> Pair<F> {
        sum.map(|s| F::sum_done(s))
    }

    ghost zero_law = { λ i. (F.zero_law i, F.zero_law i) };

    ghost can_add_law = { λ x y. tt };

    ghost can_sub_law = { λ x y. tt };

    ghost can_mul_law = { λ x y. tt };

    ghost can_neg_law = { λ x. tt };

    ghost add_law = { λ x y r h. h };

    ghost sub_law = { λ x y r h. h };

    ghost mul_law = { λ x y r h. h };

    ghost neg_law = { λ x r h. h };
}

// A field element enters with no u.
impl<F: Field> From<F> for Pair<F> {
    ghost from_gives = { λ x r. parts F.value r ≡ plain F.ring (F.value x) };

    fn from(x: F) -> Pair<F> {
        Pair { a: x, b: F::zero() }
    }
}

impl<F: Field> Add<F> for Pair<F> {
    type Output = Pair<F>;

    ghost add_gives = { λ x y r. parts F.value r ≡ (twos F.ring).add (parts F.value x) (plain F.ring (F.value y)) };

    fn add(self, other: F) -> Pair<F> {
        Pair {
            a: self.a + other,
            b: self.b,
        }
    }
}

impl<F: Field> Mul<F> for Pair<F> {
    type Output = Pair<F>;

    ghost mul_gives = { λ x y r. parts F.value r ≡ (twos F.ring).mul (parts F.value x) (plain F.ring (F.value y)) };

    fn mul(self, other: F) -> Pair<F> {
        self.map(|x| x * other)
    }
}

impl<F: Field> Algebra<F> for Pair<F> {
    ghost image = { λ x. record { a = x; b = F.zero } };

    fn mixed_sum_more(sum: Pair<F::Sum>, element: Pair<F>, factor: F) -> Pair<F::Sum> {
        sum.zip(element, |s, x| F::sum_more(s, x, factor))
    }

    ghost base = { (plain F.ring, plain_hom F.ring, λ x i. (F.value x, F.zero_law i)) };

    ghost from_law = { λ x y h. h ∙ plain_image F.ring F.zero_law (F.value x) };

    ghost can_add_base_law = { λ x y. tt };

    ghost can_mul_base_law = { λ x y. tt };

    ghost add_base_law = { λ x y r h. h ∙ ap ((twos F.ring).add (parts F.value x)) (plain_image F.ring F.zero_law (F.value y)) };

    ghost mul_base_law = { λ x y r h. h ∙ ap ((twos F.ring).mul (parts F.value x)) (plain_image F.ring F.zero_law (F.value y)) };
}

// The exponent is that of the parts, as in `lanes`; an impl for every algebra would leave nobody an S-box of their own.
// Two pairs may have one power, so pairs have no root.
impl<F: Field + InjectiveMonomial> InjectiveMonomial for Pair<F> {
    const D: u8 = F::D;

    ghost D = { F.D };

    ghost least = { F.least };
}
