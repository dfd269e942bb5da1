ghost use Rattle.poseidon1.specs.Answers.{Expands};

use field::Field;
use field::refusal::Refusal;
use field::sizes::check_width;

/// Writes the circulant matrix whose first column is `column` into `dense`, row by row.
/// The buffer is the caller's, and as wide as the column is long.
pub fn circulant_to_dense<F: Field>(column: &[i64], dense: &mut [F]) -> Result<(), Refusal>
    ensures { Expands F.ring F.value column.now dense.old dense.new result }
{
    let n = column.len();
    check_width(n)?;
    if dense.len() != n * n {
        return Err(Refusal::TablesLength);
    }
    for (k, entry) in dense.iter_mut().enumerate() {
        let (i, j) = (k / n, k % n);
        *entry = F::from_i64(column[(n + i - j) % n]);
    }
    Ok(())
}
