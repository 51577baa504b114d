// What stands at a source.
ghost use Rattle.std.specs.Prelude.{◌≡◌, pos, slice_index_or};
ghost use Rattle.lines.specs.Commands.{as_number};
ghost use Rattle.lines.specs.Programs.{constant_in};
ghost use Rattle.lines.specs.View.{at};
ghost use Rattle.machine.specs.Lines.{brought, lines_of, standing, switch_of};
ghost use Rattle.readings.specs.Range.{InRange};

use crate::sample::Sample;
use crate::state::Machine;
use crate::values::as_number;
use lines::source::Source;

impl Sample {
    // The input at this place; beyond the eight there is none, which reads as 0.
    fn input(&self, place: u8) -> i16
        ensures { result ≡ slice_index_or self.now.inputs place (pos 0) }
    {
        self.inputs.get(usize::from(place)).copied().unwrap_or(0)
    }

    // The switch bit of this number, as 0 or 1.
    fn switch(&self, number: u8) -> i16
        ensures { result ≡ as_number (switch_of self.now.bits number) }
    {
        as_number(number < 9 && (self.bits >> number) % 2 == 1)
    }
}

impl Machine {
    // The number at a source; a bit is 0 or 1.
    pub(crate) fn number(&self, source: Source, sample: &Sample) -> i16
        ensures value { result ≡ at (standing (brought sample.now) (lines_of self.now.values)) source }
        ensures range { InRange (constant_in source) → InRange result }
    {
        match source {
            Source::Fixed(z) => z,
            Source::Line(address) => self.values.line(address),
            Source::Input(place) => sample.input(place),
            Source::Switch(i) => sample.switch(i),
        }
    }
}
