// The switches: a reading passed on, turned or left out as a bit says.
ghost use Rattle.arithmetic.specs.Switches.{selected, switched};
ghost use Rattle.std.specs.Prelude.{◌≡◌};

use readings::reading::Reading;

// The switches that remember nothing.
#[derive(Clone, Copy, PartialEq, Eq, Debug)]
pub enum Switch {
    // turned where the bit is 1
    Sih,
    // turned where the bit is 0
    Sil,
    // 0 where the bit is 0
    Szl,
    // 0 where the bit is 1
    Szh,
}

impl Switch {
    // What the switch gives.
    pub fn apply(self, a: Reading, bit: bool) -> Reading
        ensures { result.value ≡ switched self a.value bit }
    {
        match self {
            Switch::Sih => Reading::nearest(if bit { -a.value() } else { a.value() }),
            Switch::Sil => Reading::nearest(if bit { a.value() } else { -a.value() }),
            Switch::Szl => Reading::nearest(if bit { a.value() } else { 0 }),
            Switch::Szh => Reading::nearest(if bit { 0 } else { a.value() }),
        }
    }
}

// SOL: the input where the bit is 1, else what the line holds.
pub fn select(a: Reading, bit: bool, own: Reading) -> Reading
    ensures { result.value ≡ selected a.value bit own.value }
{
    if bit { a } else { own }
}
