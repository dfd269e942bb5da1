use crate::exponentiation::exp_u64;
use crate::{InjectiveMonomial, PermutationMonomial};
use field::residue::{PrimeModulus, Residue};

impl<const P: u32> InjectiveMonomial for Residue<P>
where
    Residue<P>: PrimeModulus<P>,
{
    const D: u8 = <Residue<P> as PrimeModulus<P>>::POWER_EXPONENT;

    ghost D = { ⟦<Residue<P> as PrimeModulus<P>>⟧.POWER_EXPONENT };

    ghost least = { ⟦<Residue<P> as PrimeModulus<P>>⟧.least };
}

// The root is a power too, by Fermat's theorem.
impl<const P: u32> PermutationMonomial for Residue<P>
where
    Residue<P>: PrimeModulus<P>,
{
    fn injective_exp_root_n(self) -> Residue<P> {
        exp_u64(
            self,
            u64::from(<Residue<P> as PrimeModulus<P>>::ROOT_EXPONENT),
        )
    }
}
