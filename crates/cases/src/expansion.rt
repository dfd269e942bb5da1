use field::Field;
use field::refusal::Refusal;
use field::residue::F17;
use poseidon1::utils::circulant_to_dense;
use ring::Ring;
use std::process::Abort;

// A matrix that is not its own transpose.
#[test]
fn columns_move_down(rt: HostRuntime) {
    let mut dense = [F17::zero(); 9];
    assert_eq!(rt; circulant_to_dense(&[0, 1, -15], &mut dense), Ok(()));
    assert_eq!(rt;
        dense.map(F17::as_canonical_u32),
        [0, 2, 1, 1, 0, 2, 2, 1, 0]
    );
}

// The refusal, if any, and the sum of a buffer that held four ones before.
fn answer(rt: &impl Abort, column: &[i64], length: usize) -> (Option<Refusal>, u32) {
    let mut dense = [F17::one(); 4];
    assert!(rt; length <= 4);
    let refusal = circulant_to_dense(column, &mut dense[..length]).err();
    let sum = dense
        .map(F17::as_canonical_u32)
        .into_iter()
        .fold(0, u32::saturating_add);
    (refusal, sum)
}

#[test]
fn refused_expansions_leave_the_buffer(rt: HostRuntime) {
    assert_eq!(rt; answer(&rt, &[2, 3], 4), (None, 10));
    assert_eq!(rt; answer(&rt, &[2], 1), (Some(Refusal::Width), 4));
    assert_eq!(rt; answer(&rt, &[0; 25], 4), (Some(Refusal::Width), 4));
    assert_eq!(rt; answer(&rt, &[2, 3], 3), (Some(Refusal::TablesLength), 4));
}
