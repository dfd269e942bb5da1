#![tactic(auto)]

ghost use Rattle.std.specs.Prelude.{IfOk, vec_len};
ghost use Rattle.sheet.specs.Answers.{Reads};
ghost use Rattle.sheet.specs.Grammar.{GrammarHolds};
ghost use Rattle.sheet.specs.Sheets.{Shaped};

use error::SheetError;
use field::Field;
use form::{Form, check_form};
use sizes::Sizes;
use std::alloc::Global;

pub mod error;
mod form;
mod line;
mod number;
mod rounds;
mod row;
mod sizes;

/// The parameters of a permutation.
// `read_sheet` promises their shape; an invariant would ask more of whoever makes a sheet.
#[derive(Drop)]
pub struct Sheet<F> {
    pub width: usize,
    pub rounds_f: usize,
    pub rounds_p: usize,
    /// The first column of the circulant matrix
    pub column: Vec<i64>,
    /// The round constants, one round after another
    pub constants: Vec<F>,
}

/// The sheet that `bytes` are, or why they are none.
#[tactic(auto, using(crate::proofs::GrammarHolds::grammar_holds))]
pub fn read_sheet<F: Field>(heap: Global, bytes: &[u8]) -> Result<Sheet<F>, SheetError>
    ensures reads { Reads F.ring F.value bytes.now result }
    ensures shape { IfOk result (λ s. Shaped s.width s.rounds_f s.rounds_p (vec_len s.column) (vec_len s.constants)) }
    ensures grammar { GrammarHolds }
{
    let Form {
        sizes,
        column,
        rounds,
    } = check_form(bytes)?;
    let Sizes {
        width,
        rounds_f,
        rounds_p,
    } = sizes;
    // from here on only memory can be wanting
    let column = column.numbers[..column.width].to_vec(heap)?;
    let constants = rounds.read(heap)?;
    Ok(Sheet {
        width,
        rounds_f,
        rounds_p,
        column,
        constants,
    })
}
