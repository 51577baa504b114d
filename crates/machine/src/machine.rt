// A machine's calls.
ghost use Rattle.lines.specs.Board.{command_in};
ghost use Rattle.lines.specs.Order.{descending};
ghost use Rattle.machine.specs.Lines.{brought};
ghost use Rattle.machine.specs.State.{adjust_rule, adjust_told, adjusted, cycled, loaded, loaded_mode, new as new_state, recalled as recalled_state, state_of, without_remainder};
ghost use Rattle.parcel.specs.Parcel.{asked, configured};
ghost use Rattle.parcel.specs.Verdicts.{verdict};
ghost use Rattle.std.specs.Prelude.{◌≡◌, is_ok, if◌then◌else◌};

use crate::flexible::recalled;
use crate::refusal::AdjustRefusal;
use crate::sample::Sample;
use crate::state::{Machine, Mode};
use crate::values::{AnalogValue, Values};
use lines::program::Program;
use parcel::configuration::read;
use parcel::refusal::Refusal;
use readings::reading::Reading;
use timing::phase::Phase;

// Only empty becomes stopped.
fn loaded_mode(mode: Mode) -> Mode
    ensures { result ≡ loaded_mode mode }
{
    match mode {
        Mode::Empty => Mode::Stopped,
        Mode::Stopped => Mode::Stopped,
        Mode::Running => Mode::Running,
    }
}

// An analog line with nothing left over.
fn cleared(own: AnalogValue) -> AnalogValue
    ensures { result ≡ without_remainder own }
{
    AnalogValue {
        remainder: 0,
        ..own
    }
}

impl Machine {
    // No configuration, all values and the phase 0.
    pub fn new() -> Machine
        ensures { state_of result ≡ new_state descending }
    {
        let blank = AnalogValue {
            reading: 0,
            remainder: 0,
        };
        Machine {
            mode: Mode::Empty,
            program: Program::empty(),
            values: Values {
                analog: [blank; 192],
                bits: [false; 64],
            },
            phase: Phase::first(),
        }
    }

    pub fn mode(&self) -> Mode
        ensures { result ≡ (state_of self.now).mode }
    {
        self.mode
    }

    // What a line holds; a bit is 0 or 1.
    pub fn value(&self, line: u8) -> i16
        ensures { result ≡ ((state_of self.now).lines line).value }
    {
        self.values.line(line)
    }

    // Takes a parcel if every question answers yes: values and phase stay, remainders are lost.
    pub fn load(&mut self, parcel: &[u8]) -> Result<(), Refusal>
        ensures answer { verdict result ≡ asked parcel.now }
        ensures state { state_of self.new ≡ (if is_ok result then loaded (command_in (configured parcel.now)) (state_of self.old) else state_of self.old) }
    {
        let configuration = read(parcel)?;
        self.program = Program::of(&configuration);
        self.values.analog = self.values.analog.map(cleared);
        self.mode = loaded_mode(self.mode);
        Ok(())
    }

    // Gives every FLX line its default.
    pub fn recall(&mut self)
        ensures { state_of self.new ≡ recalled_state (state_of self.old) }
    {
        self.values.analog = recalled(&self.program, &self.values.analog);
    }

    // Sets the reading of an FLX line.
    pub fn adjust(&mut self, line: u8, number: i32) -> Result<(), AdjustRefusal>
        ensures answer { adjust_told result ≡ adjust_rule ((state_of self.old).command line) number }
        ensures state { state_of self.new ≡ adjusted line number (state_of self.old) }
    {
        let Some(place) = self.flexible_place(line) else {
            return Err(AdjustRefusal::NotFlexible);
        };
        if number < -Reading::LIMIT || number > Reading::LIMIT {
            return Err(AdjustRefusal::OverRange);
        }
        self.values.analog[place].reading = number as i16;
        Ok(())
    }

    // One cycle, on what the terminals gave.
    pub fn cycle(&mut self, sample: &Sample)
        ensures { state_of self.new ≡ cycled (brought sample.now) (state_of self.old) }
    {
        self.sweep(sample);
        self.decide(sample);
        self.phase = self.phase.next();
    }
}
