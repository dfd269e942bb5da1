ghost use Rattle.std.specs.Prelude.{◌≡◌, T, ◌↔◌};

use algebra::Algebra;
use field::Field;
use field::residue::F17;
use foreign::twins;
use lanes::Lanes;
use pairs::Pair;
use std::process::Abort;

// Generic code that rests on the laws alone: what field elements do to an element is what their images do.
fn affine<F: Field, X: Algebra<F>>(x: X, factor: F, summand: F) -> X
    ensures { X.value result ≡ X.ring.add (X.ring.add (X.ring.mul (X.value x) (X.value (X.image factor))) (X.value (X.image summand))) (X.value (X.image factor)) }
{
    x * factor + summand + X::from(factor)
}

// Elements are equal where they mean one value, in every field.
fn same<F: Field>(x: F, y: F) -> bool
    ensures { T result ↔ (F.value x ≡ F.value y) }
{
    x == y
}

// Three times the element, and four and three more.
fn becomes<X: Algebra<F17> + Eq>(rt: &impl Abort, x: X, answer: X) {
    assert!(rt; affine(x, F17::from_i64(3), F17::from_i64(4)) == answer);
}

#[test]
fn field_elements_act_on_every_algebra(rt: HostRuntime) {
    becomes(&rt, F17::from_i64(5), F17::from_i64(5));
    becomes(
        &rt,
        Lanes {
            a: F17::from_i64(1),
            b: F17::from_i64(2),
            c: F17::from_i64(3),
            d: F17::from_i64(4),
        },
        Lanes {
            a: F17::from_i64(10),
            b: F17::from_i64(13),
            c: F17::from_i64(16),
            d: F17::from_i64(2),
        },
    );
    becomes(
        &rt,
        Pair {
            a: F17::from_i64(5),
            b: F17::from_i64(2),
        },
        Pair {
            a: F17::from_i64(5),
            b: F17::from_i64(6),
        },
    );
}

#[test]
fn two_elements_for_one_value_are_equal(rt: HostRuntime) {
    let (x, y) = twins();
    assert!(rt; same(x, y));
    assert!(rt; !same(x, x + y));
}
