// Readings: whole numbers of 1/160 percent, so 16000 is 100.0 %.
ghost use Rattle.readings.specs.Range.{InRange, clamped, highest, limit, lowest, readable, signed_by};
ghost use Rattle.std.specs.Option.{option_map};
ghost use Rattle.std.specs.Prelude.{◌≡◌, ◌<◌, pos, neg_ℤ, ◌≤ℤ◌};

const GREATEST: i32 = 32767;

#[derive(Clone, Copy, PartialEq, Eq, Debug)]
pub struct Reading {
    value: i16,
    ghost range: { InRange value },
}

impl Reading {
    // The greatest limited reading, 199.9 %.
    pub const LIMIT: i32 = 31984;

    // A reading exactly where the number is in range.
    pub fn new(value: i32) -> Option<Reading>
        ensures { option_map (λ x. x.value) result ≡ readable value }
    {
        if value < -GREATEST || value > GREATEST {
            return None;
        }
        Some(Reading {
            value: value as i16,
        })
    }

    // The reading nearest to any number.
    pub fn nearest(value: i32) -> Reading
        ensures value { result.value ≡ clamped lowest highest value }
        ensures same { InRange value → result.value ≡ value }
    {
        Reading::within(value, GREATEST)
    }

    // Any number, brought into ±199.9 %.
    #[tactic(auto, unfolding(crate::specs::Range::limit))]
    pub fn limited(value: i32) -> Reading
        ensures { result.value ≡ limit value }
    {
        Reading::within(value, Reading::LIMIT)
    }

    // The number, brought between -bound and bound.
    fn within(value: i32, bound: i32) -> Reading
        requires low { pos 0 ≤ℤ bound }
        requires high { bound ≤ℤ highest }
        ensures { result.value ≡ clamped (neg_ℤ bound) bound value }
    {
        Reading {
            value: value.clamp(-bound, bound) as i16,
        }
    }

    pub fn value(self) -> i32
        ensures same { result ≡ self.value }
        ensures range { InRange result }
    {
        i32::from(self.value)
    }

    // The reading of a magnitude, which is minus unless `plus`.
    pub(crate) fn signed(magnitude: u16, plus: bool) -> Reading
        requires { magnitude < 32768 }
        ensures { result.value ≡ signed_by plus magnitude }
    {
        let amount = magnitude as i16;
        Reading {
            value: if plus { amount } else { -amount },
        }
    }
}

impl From<Reading> for i16 {
    ghost from_gives = { λ r z. z ≡ r.value };

    fn from(reading: Reading) -> i16 {
        reading.value
    }
}
