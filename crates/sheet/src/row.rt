ghost use Rattle.std.specs.Prelude.{◌≡◌, ◌+◌, ◌*◌, ◌≤◌, length, drop, Some, None, MatchOption};
ghost use Rattle.sheet.specs.Places.{line_at};

use crate::line::read_line;
use crate::sizes::Sizes;
use field::sizes::MAX_WIDTH;

// The numbers of a line, `width` of them in the first places; they need no memory.
// A line fills a slice of known length; an `ArrayVec` would be filled by pushes, each with a bound to show.
#[derive(Clone, Copy)]
pub(crate) struct Row {
    pub(crate) numbers: [i64; MAX_WIDTH],
    pub(crate) width: usize,
    ghost fits: { width ≤ length numbers },
}

impl Row {
    ghost use Rattle.sheet.specs.Rows.{numbers_of};

    // The row of the line that `bytes` begin with, and what follows that line.
    pub(crate) fn read(bytes: &[u8], sizes: Sizes) -> Option<(Row, &[u8])>
        ensures { MatchOption result (line_at sizes.width bytes.now ≡ None) (λ p. (line_at sizes.width bytes.now ≡ Some (numbers_of p.0)) × (p.1.now ≡ drop (11 * sizes.width + 1) bytes.now)) }
    {
        let width = sizes.width;
        let mut numbers = [0; MAX_WIDTH];
        let rest = read_line(bytes, &mut numbers[..width])?;
        Some((Row { numbers, width }, rest))
    }

    pub(crate) fn as_slice(&self) -> &[i64]
        ensures { result.now ≡ numbers_of self.now }
    {
        &self.numbers[..self.width]
    }
}
