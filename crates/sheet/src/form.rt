ghost use Rattle.std.specs.Prelude.{◌≡◌, Err, MatchResult};
ghost use Rattle.sheet.specs.Forms.{Checked};
ghost use Rattle.sheet.specs.Sheets.{sheet_of};

use crate::line::read_line;
use crate::rounds::Rows;
use crate::row::Row;
use crate::sizes::Sizes;
use field::refusal::Refusal;

// A sheet whose form has been checked: its sizes, its column, and the lines of its rounds.
pub(crate) struct Form<'a> {
    pub(crate) sizes: Sizes,
    pub(crate) column: Row,
    pub(crate) rounds: Rows<'a>,
}

// Checks all of `bytes` and needs no memory, so that want of it cannot hide a refusal.
pub(crate) fn check_form(bytes: &[u8]) -> Result<Form<'_>, Refusal>
    ensures { MatchResult result (λ f. Checked bytes.now f) (λ q. sheet_of bytes.now ≡ Err q) }
{
    let mut header = [0; 3];
    let body = read_line(bytes, &mut header).ok_or(Refusal::Line(1))?;
    let sizes = Sizes::try_from(header)?;
    let (column, lines) = Row::read(body, sizes).ok_or(Refusal::Line(2))?;
    let rounds = Rows::new(lines, sizes);
    rounds.check()?;
    Ok(Form {
        sizes,
        column,
        rounds,
    })
}
