// What the terminals gave at the start of a cycle.
ghost use Rattle.std.specs.Prelude.{◌≡◌, ℕ, pos, slice_index_or};
ghost use Rattle.readings.specs.Range.{InRange, clamped, highest, lowest};

use readings::reading::Reading;

// Eight input readings, and the switch bits D00 to D08 as a number, D00 lowest. Unlike what terminals give, its inputs are
// known to be readings; there an equation names the whole value, which a type with such a fact does not allow.
#[derive(Clone, Copy)]
pub struct Sample {
    pub(crate) inputs: [i16; 8],
    pub(crate) bits: u16,
    ghost range: { (k : ℕ) → InRange (slice_index_or inputs k (pos 0)) },
}

fn nearest(value: i16) -> i16
    ensures { result ≡ clamped lowest highest value }
{
    i16::from(Reading::nearest(i32::from(value)))
}

impl Sample {
    // An input that is no reading counts as the nearest one.
    pub fn new(inputs: &[i16; 8], bits: u16) -> Sample
        ensures inputs { (k : ℕ) → slice_index_or result.inputs k (pos 0) ≡ clamped lowest highest (slice_index_or inputs.now k (pos 0)) }
        ensures bits { result.bits ≡ bits }
    {
        Sample {
            inputs: inputs.map(nearest),
            bits,
        }
    }
}
