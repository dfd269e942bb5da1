#![tactic(auto)]

ghost use Rattle.std.specs.Prelude.{◌≡◌, [], ◌∷◌};
ghost use Rattle.cubes.specs.Cubes.{WorkedCubes, cube_of};

use field::Field;
use field::residue::F17;
use monomial::InjectiveMonomial;
use pairs::Pair;

/// Worked cubes on pairs over the field of 17, as the code answers them.
#[derive(Clone, Copy, PartialEq, Eq, Debug)]
pub struct Cubes {
    /// The cube of 1
    pub of_one: [u32; 2],
    /// The cube of 8 + 2u
    pub of_other: [u32; 2],
}

/// The worked cubes, of the definitions and of the code.
pub fn worked_cubes() -> Cubes
    ensures defined { WorkedCubes }
    ensures of_one { result.of_one ≡ 1 ∷ 0 ∷ [] }
    ensures of_other { result.of_other ≡ 1 ∷ 0 ∷ [] }
{
    Cubes {
        of_one: cube(1, 0),
        of_other: cube(8, 2),
    }
}

// The cube of a + b·u, with u·u = 3.
fn cube(a: i64, b: i64) -> [u32; 2]
    ensures { result ≡ cube_of a b }
{
    let power = Pair {
        a: F17::from_i64(a),
        b: F17::from_i64(b),
    }
    .injective_exp_n();
    [power.a.as_canonical_u32(), power.b.as_canonical_u32()]
}
