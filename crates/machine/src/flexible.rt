// The lines whose readings can be set: FLX.
ghost use Rattle.std.specs.Prelude.{◌≡◌, ℕ, ◌+◌, ◌<◌, List, Option, IfSome, is_some, slice_index_or};
ghost use Rattle.lines.specs.Board.{analog_command, command_of};
ghost use Rattle.lines.specs.Programs.{constant_in, idle_analog};
ghost use Rattle.machine.specs.Lines.{blank};
ghost use Rattle.machine.specs.Sound.{AllSound, Sound};
ghost use Rattle.machine.specs.State.{IsRestored, default_of as default_in, flexible};
ghost use Rattle.readings.specs.Range.{InRange};
ghost use Rattle.readings.specs.declared.word.Word.{Word};

use crate::state::Machine;
use crate::values::AnalogValue;
use commands::command::Analog;
use lines::program::{Program, Work};
use lines::source::Source;
use std::array;

fn constant(source: Source) -> i16
    ensures { result ≡ constant_in source }
{
    match source {
        Source::Fixed(z) => z,
        _ => 0,
    }
}

// The default of an FLX line; no other line has one.
fn default_of(work: Work<Analog>) -> Option<i16>
    ensures value { (t : Option (List Word)) → result ≡ default_in (analog_command t work) }
    ensures constant { IfSome result (λ z. z ≡ constant_in work.sources.a) }
{
    match work.command {
        Analog::Flx => Some(constant(work.sources.a)),
        _ => None,
    }
}

// What a line holds after a recall.
fn restore(work: Work<Analog>, own: AnalogValue) -> AnalogValue
    requires own { Sound work.command own }
    requires constant { InRange (constant_in work.sources.a) }
    ensures { IsRestored work own result }
{
    match default_of(work) {
        Some(reading) => AnalogValue { reading, ..own },
        None => own,
    }
}

// All analog lines after a recall.
pub(crate) fn recalled(program: &Program, analog: &[AnalogValue; 192]) -> [AnalogValue; 192]
    requires { AllSound program.now.analog analog.now }
    ensures { (k : ℕ) → k < 192 → IsRestored (slice_index_or program.now.analog k idle_analog) (slice_index_or analog.now k blank) (slice_index_or result k blank) }
{
    array::from_fn(|place| restore(program.analog[place], analog[place]))
}

impl Machine {
    // The place of an FLX line from 40H on.
    pub(crate) fn flexible_place(&self, line: u8) -> Option<usize>
        ensures answer { is_some result ≡ flexible (command_of self.now.program line) }
        ensures place { IfSome result (λ i. 64 + i ≡ line) }
    {
        let place = usize::from(line).checked_sub(0x40)?;
        default_of(self.program.analog[place])?;
        Some(place)
    }
}
