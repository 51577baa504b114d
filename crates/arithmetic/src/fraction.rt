// The factors of the scaling commands, as fractions.
ghost use Rattle.arithmetic.specs.Operations.{denominator as denominator_of, numerator as numerator_of};
ghost use Rattle.readings.specs.Range.{InRange};
ghost use Rattle.std.specs.Prelude.{◌≡◌, pos, ◌≤ℤ◌};

use readings::settings::Factor;

#[derive(Clone, Copy)]
pub struct Fraction {
    pub numerator: i32,
    pub denominator: i32,
    ghost range: { InRange numerator },
    ghost positive: { pos 1 ≤ℤ denominator },
}

impl Fraction {
    pub fn of(factor: Factor) -> Fraction
        ensures numerator { result.numerator ≡ numerator_of factor }
        ensures denominator { result.denominator ≡ denominator_of factor }
    {
        let (numerator, denominator) = match factor {
            Factor::Tenth => (1, 10),
            Factor::Eighth => (1, 8),
            Factor::Fifth => (1, 5),
            Factor::Quarter => (1, 4),
            Factor::Third => (1, 3),
            Factor::Half => (1, 2),
            Factor::Times2 => (2, 1),
            Factor::Times3 => (3, 1),
            Factor::Times4 => (4, 1),
            Factor::Times5 => (5, 1),
            Factor::Times8 => (8, 1),
            Factor::Times10 => (10, 1),
            Factor::Times20 => (20, 1),
            Factor::Times40 => (40, 1),
            Factor::Times50 => (50, 1),
            Factor::Times100 => (100, 1),
        };
        Fraction {
            numerator,
            denominator,
        }
    }
}
