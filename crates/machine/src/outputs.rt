// What the output lines give the terminals.
ghost use Rattle.std.specs.Prelude.{◌≡◌, ◌<◌, ◌≤◌, if◌then◌else◌};
ghost use Rattle.lines.specs.Commands.{as_bit};
ghost use Rattle.machine.specs.Lines.{lines_of};
ghost use Rattle.machine.specs.Outputs.{digital_lines, outputs_of, packed};
ghost use Rattle.machine.specs.State.{state_of};
ghost use Rattle.terminals.specs.Meaning.{asked};

use crate::state::Machine;
use crate::values::Values;
use readings::reading::Reading;
use terminals::outputs::Signals;

// The lines of Q00, of Q01 to Q04, and of Q05 to Q12.
const DIGITAL: [u8; 13] = [
    0x17, 0x24, 0x25, 0x26, 0x27, 0x18, 0x19, 0x1A, 0x1B, 0x1C, 0x1D, 0x1E, 0x1F,
];

fn bit(values: &Values, address: u8) -> u16
    ensures value { result ≡ (if as_bit (lines_of values.now address).value then 1 else 0) }
    ensures few { result ≤ 1 }
{
    u16::from(values.line(address) > 0)
}

fn digital(values: &Values) -> u16
    ensures value { result ≡ packed (lines_of values.now) digital_lines }
    ensures few { result < 8192 }
{
    // By place from the last, since each place bounds the number by a power of two.
    let mut number = 0;
    for place in (0..13).rev() {
        number = bit(values, DIGITAL[place]) + 2 * number;
    }
    number
}

impl Machine {
    // The readings of A1 and A2, and the bits of Q00 to Q12.
    pub fn outputs(&self) -> Signals
        ensures value { asked result ≡ outputs_of (state_of self.now).lines }
        ensures few { result.digital < 8192 }
    {
        Signals {
            first: Reading::nearest(self.values.analog[0].reading.into()),
            second: Reading::nearest(self.values.analog[1].reading.into()),
            digital: digital(&self.values),
        }
    }
}
