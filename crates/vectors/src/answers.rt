use crate::cases::Kind;
use field::{Field, InverseField};
use lanes::Lanes;
use monomial::{InjectiveMonomial, PermutationMonomial};
use pairs::Pair;
use std::alloc::{AllocError, Global};

/// What the library answers, residue by residue; nothing where the numbers given do not fit the kind.
pub(crate) fn answer<F: InverseField + PermutationMonomial + Into<u32>>(
    heap: Global,
    kind: Kind,
    given: &[i64],
) -> Result<Option<Vec<u32>>, AllocError> {
    Ok(Some(match (kind, given) {
        (Kind::Dot, all) => {
            let all = elements::<F>(heap, all)?;
            let (left, right) = all.split_at(all.len() / 2);
            vec![in heap; F::dot_product(left, right).into()]?
        }
        (Kind::PowerLanes, [a, b, c, d]) => {
            let x = lanes::<F>(element(a), element(b), element(c), element(d));
            four(heap, x.injective_exp_n())?
        }
        (Kind::RootLanes, [a, b, c, d]) => {
            let x = lanes::<F>(element(a), element(b), element(c), element(d));
            four(heap, x.injective_exp_root_n())?
        }
        (Kind::PowerPair, [a, b]) => {
            let a = element::<F>(a);
            let b = element::<F>(b);
            let Pair { a, b } = Pair { a, b }.injective_exp_n();
            vec![in heap; a.into(), b.into()]?
        }
        (Kind::Inverse, [x]) => {
            let found = element::<F>(x).inverse();
            found.into_iter().map(F::into).collect(heap)?
        }
        (Kind::Power, [x]) => vec![in heap; element::<F>(x).injective_exp_n().into()]?,
        (Kind::Root, [x]) => vec![in heap; element::<F>(x).injective_exp_root_n().into()]?,
        (Kind::From | Kind::Product, [x]) => vec![in heap; element::<F>(x).into()]?,
        // whichever of these is asked, two numbers are multiplied
        (Kind::From | Kind::Product | Kind::Inverse | Kind::Power | Kind::Root, [x, y]) => {
            vec![in heap; (element::<F>(x) * element::<F>(y)).into()]?
        }
        _ => return Ok(None),
    }))
}

fn four<F: Into<u32>>(heap: Global, x: Lanes<F>) -> Result<Vec<u32>, AllocError> {
    let Lanes { a, b, c, d } = x;
    Ok(vec![in heap; a.into(), b.into(), c.into(), d.into()]?)
}

fn lanes<F>(a: F, b: F, c: F, d: F) -> Lanes<F> {
    Lanes { a, b, c, d }
}

fn elements<F: Field>(heap: Global, numbers: &[i64]) -> Result<Vec<F>, AllocError> {
    numbers.iter().map(|n| element::<F>(n)).collect(heap)
}

fn element<F: Field>(n: &i64) -> F {
    F::from_i64(*n)
}
