ghost use Rattle.std.specs.Prelude.{◌≡◌, Some, MatchResult};
ghost use Rattle.field.specs.Sizes.{Admitted};
ghost use Rattle.sheet.specs.Sheets.{natural, size_refused};

use field::refusal::Refusal;
use field::sizes::check_sizes;

// Sizes within their bounds.
#[derive(Clone, Copy)]
pub(crate) struct Sizes {
    pub(crate) width: usize,
    pub(crate) rounds_f: usize,
    pub(crate) rounds_p: usize,
    ghost admitted: { Admitted width rounds_f rounds_p },
}

// A size; a negative one counts as 0, which no size may be.
fn size(n: i64) -> usize
    ensures { result ≡ natural n }
{
    usize::try_from(n).unwrap_or(0)
}

// The three numbers of line 1, each within its bounds.
impl TryFrom<[i64; 3]> for Sizes {
    ghost use Rattle.sheet.specs.Forms.{SizesOf};

    type Error = Refusal;

    ghost try_from_gives = { λ zs r. MatchResult r (SizesOf zs) (λ q. size_refused zs ≡ Some q) };

    fn try_from(numbers: [i64; 3]) -> Result<Sizes, Refusal> {
        let [width, rounds_f, rounds_p] = numbers.map(size);
        check_sizes(width, rounds_f, rounds_p)?;
        Ok(Sizes {
            width,
            rounds_f,
            rounds_p,
        })
    }
}
