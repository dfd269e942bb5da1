ghost use Rattle.std.specs.Prelude.{◌≡◌, ◌≤◌, length};
ghost use Rattle.sheet.specs.Lines.{digits_value, number_value, text_value};
ghost use Rattle.sheet.specs.Places.{Small};

// How many columns a field has.
pub(crate) const COLUMNS: usize = 11;

// What is left of a field, so few bytes that their digits fit.
#[derive(Clone, Copy)]
struct Rest<'a> {
    bytes: &'a [u8],
    ghost short: { length bytes.now ≤ 11 },
}

impl Rest<'_> {
    // One digit or more.
    #[tactic(auto, using(crate::proofs::Texts::digit_steps))]
    fn digits(self) -> Option<u64>
        ensures value { result ≡ digits_value self.entry.bytes.now }
        ensures small { Small result }
    {
        if self.bytes.is_empty() {
            return None;
        }
        let mut n = 0;
        let mut rest = self.bytes;
        while let [d @ b'0'..=b'9', more @ ..] = rest {
            n = n * 10 + u64::from(*d - b'0');
            rest = more;
        }
        match rest {
            [] => Some(n),
            _ => None,
        }
    }

    // Digits, after a minus sign or none.
    fn signed(self) -> Option<i64>
        ensures { result ≡ number_value self.entry.bytes.now }
    {
        match self.bytes {
            [b'-', rest @ ..] => Rest { bytes: rest }.digits().map(|n| -(n as i64)),
            _ => self.digits().map(|n| n as i64),
        }
    }
}

// A number after blanks.
pub(crate) fn read_field(field: &[u8; COLUMNS]) -> Option<i64>
    ensures { result ≡ text_value field.now }
{
    let mut rest: &[u8] = field;
    while let [b' ', more @ ..] = rest {
        rest = more;
    }
    Rest { bytes: rest }.signed()
}
