ghost use Rattle.std.specs.Prelude.{◌≡◌, ◌+◌, ◌*◌, length, drop, Some, None, MatchOption};
ghost use Rattle.sheet.specs.Places.{line_at};

use crate::number::{COLUMNS, read_field};

// Fills `numbers` from the line that `bytes` begins with, and answers what follows that line;
// nothing where they begin with no line of so many numbers.
#[tactic(auto, using(crate::proofs::Lines::line_steps))]
pub(crate) fn read_line<'a>(bytes: &'a [u8], numbers: &mut [i64]) -> Option<&'a [u8]>
    ensures { MatchOption result (line_at (length numbers.old) bytes.now ≡ None) (λ rest. (line_at (length numbers.old) bytes.now ≡ Some numbers.new) × (rest.now ≡ drop (11 * length numbers.old + 1) bytes.now)) }
{
    let mut rest = bytes;
    for n in numbers.iter_mut() {
        let (field, more) = rest.split_first_chunk::<COLUMNS>()?;
        *n = read_field(field)?;
        rest = more;
    }
    match rest {
        [b'\n', more @ ..] => Some(more),
        _ => None,
    }
}
