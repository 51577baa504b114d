// The table: seventeen points at the inputs 0, 1024, .., 16384, and straight lines between them.
ghost use Rattle.std.specs.Prelude.{◌≡◌, ◌<◌, pos, ◌+ℤ◌, ◌-ℤ◌, ◌*ℤ◌};
ghost use Rattle.arithmetic.specs.Quotients.{QuotientLaw, quotient};
ghost use Rattle.arithmetic.specs.Tables.{interpolated, point_of};

use crate::quotients::Dividend;
use readings::reading::Reading;
use readings::word::Word;

fn point(words: &[Word; 17], place: usize) -> Reading
    requires { place < 17 }
    ensures { result.value ≡ point_of words.now place }
{
    words[place].reading()
}

// The reading r of 1024 steps on the way from one point to the next.
fn between(low: Reading, high: Reading, r: u32) -> Reading
    requires { r < 1024 }
    ensures { result.value ≡ low.value +ℤ quotient ((high.value -ℤ low.value) *ℤ pos r) (pos 1024) }
{
    Reading::nearest(low.value() + Dividend::steps(low, high, r).over(1024))
}

// TA0: an input outside the points is taken as the nearer end. The quotient in it, as in every command, is off by less than 1.
pub fn interpolate(words: &[Word; 17], a: Reading) -> Reading
    ensures value { result.value ≡ interpolated (point_of words.now) a.value }
    ensures law { QuotientLaw }
{
    if a.value() < 0 {
        return point(words, 0);
    }
    let n = a.value() as u32;
    if n >= 16384 {
        return point(words, 16);
    }
    let p = (n / 1024) as usize;
    between(point(words, p), point(words, p + 1), n % 1024)
}
