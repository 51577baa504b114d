// The work of one analog line, integrators and delays among them.
ghost use Rattle.std.specs.Prelude.{◌≡◌, Some};
ghost use Rattle.lines.specs.Commands.{Keeps, analog_view, resulting};
ghost use Rattle.machine.specs.Lines.{analog_held};
ghost use Rattle.machine.specs.Sound.{Sound};
ghost use Rattle.readings.specs.Range.{InRange};

use crate::values::AnalogValue;
use commands::command::Analog;
use lines::program::Work;
use lines::work::work_analog;
use readings::reading::Reading;
use readings::settings::Divisor;
use readings::word::Word;
use timing::phase::Phase;
use timing::remainder::Remainder;
use timing::steps::{Step, delay, integrate};

// The remainder that a line keeps, as one of its divisor.
fn remainder(divisor: Divisor, m: i16) -> Remainder
    requires { Keeps (Some divisor) m }
    ensures value { result.value ≡ m }
    ensures divisor { result.divisor ≡ divisor }
{
    Remainder::new(divisor, i32::from(m)).unwrap_or(Remainder::zero(divisor))
}

// The reading that a number at a source is. That of `lines` takes any number; here it is known to be one.
fn reading(number: i16) -> Reading
    requires { InRange number }
    ensures { result.value ≡ number }
{
    Reading::nearest(i32::from(number))
}

// What a line keeps of a step.
fn kept(step: Step) -> AnalogValue
    ensures reading { result.reading ≡ step.reading.value }
    ensures remainder { result.remainder ≡ step.remainder.value }
{
    AnalogValue {
        reading: i16::from(step.reading),
        remainder: step.remainder.value() as i16,
    }
}

// What an analog line holds once it is worked: a and b are what stands at its sources, own what it holds.
pub(crate) fn worked(
    work: Work<Analog>,
    table: &Option<[Word; 17]>,
    phase: Phase,
    a: i16,
    b: i16,
    own: AnalogValue,
) -> AnalogValue
    requires a { InRange a }
    requires b { InRange b }
    requires own { Sound work.command own }
    ensures value { analog_held result ≡ resulting (analog_view table.now work.command work.sources) phase.number a b (analog_held own) }
    ensures sound { Sound work.command result }
{
    match work.command {
        Analog::Integrate(d) => kept(integrate(
            reading(a),
            reading(b),
            remainder(d, own.remainder),
        )),
        Analog::Delay(d) => kept(delay(reading(a), reading(b), remainder(d, own.remainder))),
        _ => AnalogValue {
            reading: i16::from(work_analog(work, table, phase, a, b, own.reading)),
            ..own
        },
    }
}
