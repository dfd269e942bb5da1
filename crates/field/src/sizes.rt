ghost use Rattle.std.specs.Prelude.{◌≡◌, Some, None, MatchResult};
ghost use Rattle.field.specs.Sizes.{width_refused, sizes_refused};

use crate::refusal::Refusal;

pub const MIN_WIDTH: usize = 2;

pub const MAX_WIDTH: usize = 24;

pub const MIN_ROUNDS_F: usize = 6;

pub const MAX_ROUNDS_F: usize = 32;

pub const MIN_ROUNDS_P: usize = 1;

pub const MAX_ROUNDS_P: usize = 128;

/// Whether a state may have this width.
pub fn check_width(width: usize) -> Result<(), Refusal>
    ensures { MatchResult result (λ _. width_refused width ≡ None) (λ q. width_refused width ≡ Some q) }
{
    if !(MIN_WIDTH..=MAX_WIDTH).contains(&width) {
        return Err(Refusal::Width);
    }
    Ok(())
}

/// Whether a permutation may have these sizes; else the first that it may not have.
pub fn check_sizes(width: usize, rounds_f: usize, rounds_p: usize) -> Result<(), Refusal>
    ensures { MatchResult result (λ _. sizes_refused width rounds_f rounds_p ≡ None) (λ q. sizes_refused width rounds_f rounds_p ≡ Some q) }
{
    check_width(width)?;
    // each test with its own refusal: a function for both would need a clause longer than they are
    if !(MIN_ROUNDS_F..=MAX_ROUNDS_F).contains(&rounds_f) {
        return Err(Refusal::FullRounds);
    }
    if !(MIN_ROUNDS_P..=MAX_ROUNDS_P).contains(&rounds_p) {
        return Err(Refusal::PartialRounds);
    }
    Ok(())
}
