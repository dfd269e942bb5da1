#![tactic(auto)]

ghost use Rattle.folding.specs.Answers.{Folds};

use field::Field;
use poseidon1::utils::circulant_to_dense;
use sheet::error::SheetError;
use sheet::{Sheet, read_sheet};
use std::alloc::Global;

pub mod columns;
pub mod output;

/// A sheet, and what is folded from it.
#[derive(Drop)]
pub struct Folded<F> {
    pub sheet: Sheet<F>,
    /// The matrix M, row by row
    pub matrix: Vec<F>,
}

/// Folds the sheet that `bytes` are; a refusal of any step comes out as it is.
pub fn fold<F: Field>(heap: Global, bytes: &[u8]) -> Result<Folded<F>, SheetError>
    ensures { Folds F.ring F.value bytes.now result }
{
    let sheet = read_sheet::<F>(heap, bytes)?;
    let n = sheet.width;
    let mut matrix = vec![in heap; F::zero(); n * n]?;
    circulant_to_dense(&sheet.column, &mut matrix)?;
    Ok(Folded { sheet, matrix })
}
