ghost use Rattle.std.specs.Prelude.{◌≡◌, Some};
ghost use Rattle.field.specs.Refusals.{number_of, place_of, message_of};

use std::error::Error;
use std::fmt;

/// Why a call is refused, for every call of the library.
#[derive(Clone, Copy, PartialEq, Eq, Debug)]
pub enum Refusal {
    /// The width N is not from 2 to 24
    Width,
    /// The full rounds are not from 6 to 32
    FullRounds,
    /// The partial rounds are not from 1 to 128
    PartialRounds,
    /// The column is not N long, or the dense matrix not N×N
    MatrixLength,
    /// The constants are not N for each round
    ConstantsLength,
    /// The table buffer has another length
    TablesLength,
    /// The work buffer is not 4×N×N elements
    WorkLength,
    /// The spare buffer is not 4×N elements
    SpareLength,
    /// The least column of M that is a sum of multiples of earlier ones
    SingularMatrix(usize),
    /// The least row of M without row and column 0 that is a sum of multiples of earlier ones
    SingularBlock(usize),
    /// The state is not N elements
    StateLength,
    /// The engine's width is not N
    EngineWidth,
    /// The line of a sheet, from 1, that has the wrong form, is missing or is extra
    Line(usize),
}

impl Refusal {
    pub fn number(self) -> u8
        ensures { result ≡ number_of self }
    {
        match self {
            Refusal::Width => 1,
            Refusal::FullRounds => 2,
            Refusal::PartialRounds => 3,
            Refusal::MatrixLength | Refusal::ConstantsLength => 4,
            Refusal::TablesLength | Refusal::WorkLength | Refusal::SpareLength => 5,
            Refusal::SingularMatrix(_) => 6,
            Refusal::SingularBlock(_) => 7,
            Refusal::StateLength => 8,
            Refusal::EngineWidth => 9,
            Refusal::Line(_) => 10,
        }
    }

    pub fn place(self) -> usize
        ensures { result ≡ place_of self }
    {
        match self {
            Refusal::Width
            | Refusal::FullRounds
            | Refusal::PartialRounds
            | Refusal::MatrixLength
            | Refusal::TablesLength
            | Refusal::StateLength
            | Refusal::EngineWidth => 0,
            Refusal::ConstantsLength | Refusal::WorkLength => 1,
            Refusal::SpareLength => 2,
            Refusal::SingularMatrix(column) => column,
            Refusal::SingularBlock(row) => row,
            Refusal::Line(line) => line,
        }
    }
}

impl fmt::Display for Refusal {
    ghost output = { λ refusal. Some (message_of refusal) };

    fn fmt<W: fmt::Write>(&self, f: &mut fmt::Formatter<W>) -> fmt::Result {
        write!(f, "refusal {} at {}", self.number(), self.place())
    }
}

impl Error for Refusal {}
