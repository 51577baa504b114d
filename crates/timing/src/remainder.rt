// The remainder that an integrator or a delay keeps: a number nearer to 0 than its divisor.
ghost use Rattle.std.specs.Option.{option_map};
ghost use Rattle.timing.specs.Divisors.{Below, Small, cut as cut_of, divisor as divisor_of, remaining, rest as rest_of};
ghost use Rattle.std.specs.Prelude.{◌≡◌, pos, ◌+ℤ◌, ◌-ℤ◌, ◌≤ℤ◌};

use readings::reading::Reading;
use readings::settings::Divisor;

#[derive(Clone, Copy, PartialEq, Eq, Debug)]
pub struct Remainder {
    divisor: Divisor,
    value: i16,
    ghost small: { Below (divisor_of divisor) value },
}

// The divisor as a number.
fn number(divisor: Divisor) -> i32
    ensures value { result ≡ divisor_of divisor }
    ensures low { pos 1 ≤ℤ result }
    ensures high { result ≤ℤ pos 30000 }
{
    divisor as i32
}

impl Remainder {
    // A remainder exactly where the number is nearer to 0 than the divisor.
    pub fn new(divisor: Divisor, value: i32) -> Option<Remainder>
        ensures value { option_map (λ m. m.value) result ≡ remaining divisor value }
        ensures divisor { option_map (λ m. m.divisor) result ≡ option_map (λ _. divisor) (remaining divisor value) }
    {
        let d = number(divisor);
        if value <= -d || value >= d {
            return None;
        }
        Some(Remainder {
            divisor,
            value: value as i16,
        })
    }

    // Nothing left over.
    pub fn zero(divisor: Divisor) -> Remainder
        ensures value { result.value ≡ pos 0 }
        ensures divisor { result.divisor ≡ divisor }
    {
        Remainder { divisor, value: 0 }
    }

    pub fn value(self) -> i32
        ensures value { result ≡ self.value }
        ensures small { Below (divisor_of self.divisor) result }
    {
        i32::from(self.value)
    }

    pub fn divisor(self) -> Divisor
        ensures { result ≡ self.divisor }
    {
        self.divisor
    }
}

// What an integrator or a delay divides, the remainder kept before included, and what by.
#[derive(Clone, Copy)]
pub(crate) struct Division {
    pub(crate) dividend: i32,
    pub(crate) divisor: Divisor,
    ghost small: { Small dividend },
}

impl Division {
    // An integrator's: its input.
    pub(crate) fn of_input(a: Reading, m: Remainder) -> Division
        ensures dividend { result.dividend ≡ a.value +ℤ m.value }
        ensures divisor { result.divisor ≡ m.divisor }
    {
        Division {
            dividend: a.value() + m.value(),
            divisor: m.divisor,
        }
    }

    // A delay's: its distance from the input.
    pub(crate) fn of_distance(a: Reading, b: Reading, m: Remainder) -> Division
        ensures dividend { result.dividend ≡ a.value -ℤ b.value +ℤ m.value }
        ensures divisor { result.divisor ≡ m.divisor }
    {
        Division {
            dividend: a.value() - b.value() + m.value(),
            divisor: m.divisor,
        }
    }

    // Cut toward zero.
    pub(crate) fn quotient(self) -> i32
        ensures value { result ≡ cut_of self.dividend (divisor_of self.divisor) }
        ensures small { Small result }
    {
        self.dividend / number(self.divisor)
    }

    // What is left, with the dividend's sign.
    pub(crate) fn remainder(self) -> Remainder
        ensures value { result.value ≡ rest_of self.dividend (divisor_of self.divisor) }
        ensures divisor { result.divisor ≡ self.divisor }
    {
        Remainder {
            divisor: self.divisor,
            value: (self.dividend % number(self.divisor)) as i16,
        }
    }
}
