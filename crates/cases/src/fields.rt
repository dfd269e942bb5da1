use field::Field;
use field::residue::{BabyBear, F17, KoalaBear};
use std::process::Abort;

// Each whole number enters the field as the residue beside it.
fn enters<F: Field + Into<u32>>(rt: &impl Abort, cases: &[(i64, u32)]) {
    for &(n, residue) in cases {
        let found: u32 = F::from_i64(n).into();
        assert_eq!(rt; found, residue);
    }
}

#[test]
fn whole_numbers_enter_the_field_of_17(rt: HostRuntime) {
    enters::<F17>(
        &rt,
        &[
            (0, 0),
            (1, 1),
            (-1, 16),
            (16, 16),
            (-16, 1),
            (17, 0),
            (-17, 0),
            (9223372036854775807, 8),
            (-9223372036854775808, 8),
        ],
    );
}

#[test]
fn whole_numbers_enter_koala_bear(rt: HostRuntime) {
    enters::<KoalaBear>(
        &rt,
        &[
            (0, 0),
            (1, 1),
            (-1, 2130706432),
            (2130706432, 2130706432),
            (-2130706432, 1),
            (2130706433, 0),
            (-2130706433, 0),
            (17, 17),
            (-17, 2130706416),
            (9223372036854775807, 201062385),
            (-9223372036854775808, 1929644047),
        ],
    );
}

#[test]
fn whole_numbers_enter_baby_bear(rt: HostRuntime) {
    enters::<BabyBear>(
        &rt,
        &[
            (0, 0),
            (1, 1),
            (-1, 2013265920),
            (2013265920, 2013265920),
            (-2013265920, 1),
            (2013265921, 0),
            (-2013265921, 0),
            (17, 17),
            (-17, 2013265904),
            (9223372036854775807, 1592717041),
            (-9223372036854775808, 420548879),
        ],
    );
}
