// One cycle of an integrator or a delay.
ghost use Rattle.timing.specs.Divisors.{cut as cut_of, divisor as divisor_of, rest as rest_of};
ghost use Rattle.timing.specs.Ramps.{Between};
ghost use Rattle.timing.specs.Remainders.{beyond as is_beyond, delayed, delayed_rest, integrated, integrated_rest};
ghost use Rattle.timing.specs.Sums.{SumLaw};
ghost use Rattle.std.specs.Prelude.{◌≡◌, pos, ◌+ℤ◌, ◌-ℤ◌, if◌then◌else◌};

use crate::remainder::{Division, Remainder};
use readings::reading::Reading;

// The reading that a line takes, and the remainder that it keeps.
#[derive(Clone, Copy)]
pub struct Step {
    pub reading: Reading,
    pub remainder: Remainder,
}

// b moved by what the division gives.
fn moved(b: Reading, division: Division) -> i32
    ensures { result ≡ b.value +ℤ cut_of division.dividend (divisor_of division.divisor) }
{
    b.value() + division.quotient()
}

// Whether limiting changes the number.
fn beyond(z: i32) -> bool
    ensures { result ≡ is_beyond z }
{
    z < -Reading::LIMIT || z > Reading::LIMIT
}

// What an integrator keeps of the division: nothing after a limited cycle.
fn kept(sum: i32, division: Division) -> Remainder
    ensures value { result.value ≡ (if is_beyond sum then pos 0 else rest_of division.dividend (divisor_of division.divisor)) }
    ensures divisor { result.divisor ≡ division.divisor }
{
    if beyond(sum) {
        return Remainder::zero(division.divisor);
    }
    division.remainder()
}

// IG1 to IG8: b and the input with the remainder, divided; after a limited cycle nothing is left over.
pub fn integrate(a: Reading, b: Reading, m: Remainder) -> Step
    ensures reading { result.reading.value ≡ integrated (divisor_of m.divisor) a.value b.value m.value }
    ensures remainder { result.remainder.value ≡ integrated_rest (divisor_of m.divisor) a.value b.value m.value }
    ensures divisor { result.remainder.divisor ≡ m.divisor }
    ensures law { SumLaw }
{
    let division = Division::of_input(a, m);
    let sum = moved(b, division);
    Step {
        reading: Reading::limited(sum),
        remainder: kept(sum, division),
    }
}

// VZ1 to VZ8: b moved toward the input by the distance with the remainder, divided.
pub fn delay(a: Reading, b: Reading, m: Remainder) -> Step
    ensures reading { result.reading.value ≡ delayed (divisor_of m.divisor) a.value b.value m.value }
    ensures remainder { result.remainder.value ≡ delayed_rest (divisor_of m.divisor) a.value b.value m.value }
    ensures divisor { result.remainder.divisor ≡ m.divisor }
    ensures between { Between a.value b.value result.reading.value }
{
    let division = Division::of_distance(a, b, m);
    Step {
        reading: Reading::nearest(moved(b, division)),
        remainder: division.remainder(),
    }
}
