#![tactic(auto)]

ghost use Rattle.std.specs.Prelude.{◌≡◌, [], ◌∷◌};
ghost use Rattle.worked.specs.Worked.{WorkedValues};

use field::Field;
use field::residue::F17;

/// The worked values, of the definitions and as the code answers them: from −1, −17 and −2^63 in the field of 17.
pub fn worked_values() -> [u32; 3]
    ensures defined { WorkedValues }
    ensures answered { result ≡ 16 ∷ 0 ∷ 8 ∷ [] }
{
    [
        F17::from_i64(-1).as_canonical_u32(),
        F17::from_i64(-17).as_canonical_u32(),
        F17::from_i64(i64::MIN).as_canonical_u32(),
    ]
}
