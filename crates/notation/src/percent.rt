// A reading in percent, to the tenth: a sign, three digits, a point and one digit.
ghost use Rattle.std.specs.Prelude.{◌≡◌, Some};
ghost use Rattle.notation.specs.Percents.{percent_of, percent_text};

use readings::reading::Reading;
use std::fmt;

#[derive(Clone, Copy)]
pub struct Percent {
    tenths: i16,
}

impl Percent {
    // The reading in tenths of a percent, if it is a whole number of them.
    pub fn of(reading: Reading) -> Option<Percent>
        ensures { result ≡ percent_of reading.value }
    {
        let value = reading.value();
        if value % 16 != 0 {
            return None;
        }
        Some(Percent {
            tenths: (value / 16) as i16,
        })
    }
}

impl fmt::Display for Percent {
    ghost output = { λ x. Some (percent_text x) };

    fn fmt<W: fmt::Write>(&self, f: &mut fmt::Formatter<W>) -> fmt::Result {
        let sign = if self.tenths < 0 { '-' } else { '+' };
        // `{:03}` would write four digits of a number past 999, and a fact that bounds the tenths would keep the contract of
        // `of` from naming its result whole
        let tenths = self.tenths.unsigned_abs();
        write!(
            f,
            "{sign}{}{}{}.{}",
            tenths / 1000 % 10,
            tenths / 100 % 10,
            tenths / 10 % 10,
            tenths % 10
        )
    }
}
