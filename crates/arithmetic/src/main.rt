#![tactic(auto)]

ghost use Rattle.std.specs.Prelude.{◌≡◌, MatchOption};
ghost use Rattle.ring.specs.Rings.{power};

use cubes::worked_cubes;
use field::residue::KoalaBear;
use field::{Field, InverseField};
use lanes::Lanes;
use monomial::{InjectiveMonomial, PermutationMonomial};
use ring::Ring;
use std::io;

fn main(rt: HostRuntime) -> io::Result<()> {
    tell_inverse(&rt)?;
    tell_root(&rt)?;
    tell_lanes(&rt)?;
    tell_trust(&rt)?;
    tell_cubes(&rt)
}

// The element over itself: one, or nothing for zero.
fn over_itself<F: InverseField>(x: F) -> Option<F>
    ensures { MatchOption result (F.value x ≡ F.ring.nil) (λ y. F.value y ≡ F.ring.one) }
{
    x.inverse().map(|found| x * found)
}

fn tell_inverse(rt: &impl Print) -> io::Result<()> {
    let three = KoalaBear::from_i64(3);
    rt.println("1. Preparation divides. In KoalaBear, modulo 2130706433:")?;
    if let Some(found) = three.inverse() {
        println!(rt; "   the inverse of 3 is {found};")?;
    }
    if let Some(one) = over_itself(three) {
        println!(rt; "   3 times its inverse is {one};")?;
    }
    if over_itself(KoalaBear::zero()).is_none() {
        rt.println("   zero has no inverse, and the call says so.")?;
    }
    Ok(())
}

// The root of the power: the element again, in every ring with a root.
fn there_and_back<F: PermutationMonomial>(x: F) -> F
    ensures { F.value result ≡ F.value x }
{
    x.injective_exp_n().injective_exp_root_n()
}

fn tell_root(rt: &impl Print) -> io::Result<()> {
    let x = KoalaBear::from_i64(123456789);
    let cube = x.injective_exp_n();
    let root = x.injective_exp_root_n();
    let again = there_and_back(x);
    rt.println("2. The S-box raises to the power 3, and its root undoes it:")?;
    println!(rt; "   the cube of 123456789 is {cube}, its cube root {root};")?;
    println!(rt; "   the cube root of the cube is {again}.")
}

// Four powers abreast: in each lane what the power makes of that lane alone.
fn powers_abreast<F: InjectiveMonomial>(x: Lanes<F>) -> Lanes<F>
    ensures a { F.value result.a ≡ power F.ring F.D (F.value x.a) }
    ensures b { F.value result.b ≡ power F.ring F.D (F.value x.b) }
    ensures c { F.value result.c ≡ power F.ring F.D (F.value x.c) }
    ensures d { F.value result.d ≡ power F.ring F.D (F.value x.d) }
{
    x.injective_exp_n()
}

fn tell_lanes(rt: &impl Print) -> io::Result<()> {
    let Lanes { a, b, c, d } = powers_abreast(Lanes {
        a: KoalaBear::from_i64(2),
        b: KoalaBear::from_i64(-2),
        c: KoalaBear::from_i64(1290),
        d: KoalaBear::from_i64(1291),
    });
    rt.println(
        "3. Cards run four states abreast. The cubes of 2, -2, 1290 and 1291 by four lanes:",
    )?;
    println!(rt; "   {a}, {b}, {c} and {d}.")
}

fn tell_trust(rt: &impl Print) -> io::Result<()> {
    rt.println(
        "4. Were one reduction wrong, bench, card and verifier would still meet: they reduce alike.\n   Only a counterparty with an arithmetic of its own would find another result.\n   No test among the three would show it, so the arithmetic is proved.",
    )
}

fn tell_cubes(rt: &impl Print) -> io::Result<()> {
    let [a, b] = worked_cubes().of_other;
    println!(rt;
        "5. On pairs a + b u with u u = 3 the cube has no root: 8 + 2u has the cube {a} + {b}u, as 1 has."
    )
}
