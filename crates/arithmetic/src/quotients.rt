// The one rule by which commands divide.
ghost use Rattle.arithmetic.specs.Quotients.{Small, quotient};
ghost use Rattle.readings.specs.Range.{InRange};
ghost use Rattle.std.specs.Prelude.{◌≡◌, ◌<◌, pos, ◌-ℤ◌, ◌*ℤ◌, ◌≢◌};

use readings::reading::Reading;

// A product that is to be divided, far from the ends of an i32.
#[derive(Clone, Copy)]
pub struct Dividend {
    value: i32,
    ghost small: { Small value },
}

impl Dividend {
    // The product of two readings' numbers.
    pub fn product(x: i32, y: i32) -> Dividend
        requires left { InRange x }
        requires right { InRange y }
        ensures { result.value ≡ x *ℤ y }
    {
        Dividend { value: x * y }
    }

    // The gap between two readings, r of its 1024 steps.
    pub fn steps(low: Reading, high: Reading, r: u32) -> Dividend
        requires { r < 1024 }
        ensures { result.value ≡ (high.value -ℤ low.value) *ℤ pos r }
    {
        Dividend {
            value: (high.value() - low.value()) * r as i32,
        }
    }

    // The rounding rule of MUL, DIV, REZ, QUA, the factors and the table's interpolated part.
    pub fn over(self, d: i32) -> i32
        requires { d ≢ pos 0 }
        ensures value { result ≡ quotient self.value d }
        ensures small { Small result }
    {
        self.value / d
    }
}
