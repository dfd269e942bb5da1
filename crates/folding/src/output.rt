ghost use Rattle.std.specs.Prelude.{◌≡◌, IfOk, string_bytes};
ghost use Rattle.folding.specs.Output.{output_of};
ghost use Rattle.sheet.specs.Sheets.{sheet_of};

use crate::columns::{refusal_text, rows_text};
use crate::fold;
use field::residue::F17;
use sheet::error::SheetError;
use std::alloc::{AllocError, Global};

/// What the folding program prints for `bytes`, in the field of 17.
pub fn fold_text(heap: Global, bytes: &[u8]) -> Result<String, AllocError>
    ensures { IfOk result (λ text. string_bytes text ≡ output_of (sheet_of bytes.now)) }
{
    match fold::<F17>(heap, bytes) {
        Ok(folded) => rows_text(heap, folded.sheet.width, folded.matrix.as_slice()),
        Err(SheetError::Refused(refusal)) => refusal_text(heap, refusal),
        Err(SheetError::Memory(error)) => Err(error),
    }
}
