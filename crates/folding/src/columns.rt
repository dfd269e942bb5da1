ghost use Rattle.std.specs.Prelude.{◌≡◌, map, IfOk, string_bytes};
ghost use Rattle.folding.specs.Columns.{pair_line, rows_of, ColumnsRead};
ghost use Rattle.field.specs.Refusals.{number_of, place_of};

use field::refusal::Refusal;
use field::residue::Residue;
use std::alloc::{AllocError, Global};

// How many columns a number has, in the formats below too.
const COLUMNS: usize = 11;

/// The text of residues in rows of `width`, each right-justified in 11 columns.
/// Only a full row ends with a line feed, so none does at width 0.
#[tactic(auto, using(crate::proofs::Pads::columns_read))]
pub fn rows_text<const P: u32>(
    heap: Global,
    width: usize,
    elements: &[Residue<P>],
) -> Result<String, AllocError>
    ensures rows { IfOk result (λ text. string_bytes text ≡ rows_of width 0 (map (λ x. x.value) elements.now)) }
    ensures columns { ColumnsRead }
{
    // as much as is written: the numbers, and a line feed for each full row
    let ends = elements.len().checked_div(width).unwrap_or(0);
    let bytes = elements.len().saturating_mul(COLUMNS).saturating_add(ends);
    let mut text = String::with_capacity(heap, bytes)?;
    for (k, element) in elements.iter().enumerate() {
        write!(text, "{:>11}", element.as_canonical_u32())?;
        if (k + 1).is_multiple_of(width) {
            text.push('\n')?;
        }
    }
    Ok(text)
}

/// The text of a refusal: one line, number and place.
#[tactic(auto, using(crate::proofs::Pads::written))]
pub fn refusal_text(heap: Global, refusal: Refusal) -> Result<String, AllocError>
    ensures { IfOk result (λ text. string_bytes text ≡ pair_line (number_of refusal) (place_of refusal)) }
{
    format!(in heap; "{:>11}{:>11}\n", refusal.number(), refusal.place())
}
