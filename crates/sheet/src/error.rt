ghost use Rattle.std.specs.Prelude.{◌≡◌, Some};
ghost use Rattle.sheet.specs.declared.error.SheetError.TheVariants.{Refused, Memory};
ghost use Rattle.sheet.specs.Errors.{error_text};

use field::refusal::Refusal;
use std::alloc::AllocError;
use std::error::Error;
use std::fmt;

/// Why there is no sheet: the bytes are none, or memory is wanting for one.
#[derive(Clone, Copy, Debug)]
pub enum SheetError {
    Refused(Refusal),
    Memory(AllocError),
}

impl fmt::Display for SheetError {
    ghost output = { λ e. Some (error_text e) };

    fn fmt<W: fmt::Write>(&self, f: &mut fmt::Formatter<W>) -> fmt::Result {
        match self {
            SheetError::Refused(why) => write!(f, "{why}"),
            SheetError::Memory(_) => write!(f, "memory is wanting"),
        }
    }
}

impl Error for SheetError {}

// The conversions are by hand: of a derived one no clause says which error it gives.
impl From<Refusal> for SheetError {
    ghost from_gives = { λ q r. r ≡ Refused q };

    fn from(refusal: Refusal) -> SheetError {
        SheetError::Refused(refusal)
    }
}

impl From<AllocError> for SheetError {
    ghost from_gives = { λ a r. r ≡ Memory a };

    fn from(error: AllocError) -> SheetError {
        SheetError::Memory(error)
    }
}
