// What the lines hold.
ghost use Rattle.lines.specs.Commands.{as_number};
ghost use Rattle.machine.specs.Lines.{lines_of};
ghost use Rattle.std.specs.Prelude.{◌≡◌};

// The reading of an analog line, and the remainder that an integrator or a delay keeps. Both are plain numbers, since an
// equation names them whole, which a type with a fact does not allow; that they are in range is a fact of `Machine`.
#[derive(Clone, Copy)]
pub struct AnalogValue {
    pub reading: i16,
    pub remainder: i16,
}

// The analog lines by place from 40H, and the bits of the binary lines.
#[derive(Clone, Copy)]
pub struct Values {
    pub analog: [AnalogValue; 192],
    pub bits: [bool; 64],
}

// What a bit counts as where a number is asked for.
pub(crate) fn as_number(bit: bool) -> i16
    ensures { result ≡ as_number bit }
{
    i16::from(bit)
}

impl Values {
    // What the line at this address holds; a bit is 0 or 1.
    pub(crate) fn line(&self, address: u8) -> i16
        ensures { result ≡ (lines_of self.now address).value }
    {
        let at = usize::from(address);
        if at < 0x40 {
            return as_number(self.bits[at]);
        }
        self.analog[at - 0x40].reading
    }
}
