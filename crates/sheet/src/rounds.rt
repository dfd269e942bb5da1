ghost use Rattle.std.specs.Prelude.{◌≡◌, ◌+◌, ◌≤◌, true, [], List, ◌++◌, length, map, ℤ, is_ok, Ok, Err, MatchResult, OnOk};
ghost use Rattle.std.specs.Iterator.{at_most};
ghost use Rattle.field.specs.declared.refusal.Refusal.TheVariants.{Line};
ghost use Rattle.ring.specs.Rings.{integer};
ghost use Rattle.sheet.specs.Places.{rows_at};

use crate::error::SheetError;
use crate::row::Row;
use crate::sizes::Sizes;
use field::Field;
use field::refusal::Refusal;
use std::alloc::{AllocError, Global};

// Row after row of the lines of the constants: `left` of them, of which the next has the number
// `line`. A loop takes a copy, so that the lines can be walked twice.
#[derive(Clone, Copy)]
pub(crate) struct Rows<'a> {
    bytes: &'a [u8],
    sizes: Sizes,
    left: usize,
    line: usize,
    ghost few: { left + line ≤ sizes.rounds_f + sizes.rounds_p + 3 },
}

impl<'a> Rows<'a> {
    ghost use Rattle.sheet.specs.Rows.{rows_say, Stopped};

    pub(crate) fn new(bytes: &'a [u8], sizes: Sizes) -> Rows<'a>
        ensures { rows_say result ≡ rows_at sizes.width (sizes.rounds_f + sizes.rounds_p) 3 bytes.entry.now }
    {
        Rows {
            bytes,
            sizes,
            left: sizes.rounds_f + sizes.rounds_p,
            line: 3,
        }
    }

    // Whether these lines and no other follow.
    pub(crate) fn check(self) -> Result<(), Refusal>
        ensures { MatchResult result (λ _. is_ok (rows_say self.entry) ≡ true) (λ q. rows_say self.entry ≡ Err q) }
    {
        for row in self {
            row?;
        }
        Ok(())
    }

    // The constants that the lines say.
    pub(crate) fn read<F: Field>(self, heap: Global) -> Result<Vec<F>, SheetError>
        ensures { MatchResult result (λ v. (zs : List ℤ) × (rows_say self.entry ≡ Ok zs) × (map F.value v.items ≡ map (integer F.ring) zs)) (Stopped (rows_say self.entry)) }
    {
        let mut constants = Vec::with_capacity(heap, self.left * self.sizes.width)?;
        for row in self {
            // borrowed: a row is some 200 bytes, which `?` would move
            match &row {
                Ok(row) => append(&mut constants, row.as_slice())?,
                Err(refusal) => return Err(SheetError::from(*refusal)),
            }
        }
        Ok(constants)
    }

    // The refusal of the next line, after which no row comes.
    fn refuse(&mut self) -> Refusal
        ensures refusal { result ≡ Line self.old.line }
        ensures bytes { self.new.bytes.now ≡ [] }
        ensures left { self.new.left ≡ 0 }
    {
        self.bytes = &[];
        self.left = 0;
        Refusal::Line(self.line)
    }
}

impl Iterator for Rows<'_> {
    ghost use Rattle.sheet.specs.Rows.{rows_say, NextRow};

    type Item = Result<Row, Refusal>;

    ghost next_gives = { λ s r t. NextRow (rows_say s) r (rows_say t) };

    ghost remaining = { λ s. at_most (s.left + length s.bytes.now) };

    fn next(&mut self) -> Option<Result<Row, Refusal>> {
        if self.left == 0 {
            // what follows the last row is a line too many
            return match self.bytes {
                [] => None,
                _ => Some(Err(self.refuse())),
            };
        }
        let Some((row, rest)) = Row::read(self.bytes, self.sizes) else {
            return Some(Err(self.refuse()));
        };
        self.bytes = rest;
        self.left -= 1;
        self.line += 1;
        Some(Ok(row))
    }
}

// Puts the field's elements for `numbers` behind `constants`.
fn append<F: Field>(constants: &mut Vec<F>, numbers: &[i64]) -> Result<(), AllocError>
    ensures { OnOk result (map F.value constants.new.items ≡ map F.value constants.old.items ++ map (integer F.ring) numbers.now) }
{
    constants.extend(numbers.iter().map(|n| F::from_i64(*n)))
}
