// What is put to the process.
ghost use Rattle.std.specs.Prelude.{◌≡◌, ◌<◌};

use crate::faults::PutRefusal;
use readings::reading::Reading;

// What a put asks for: two output readings, and the output bits as a number, Q00 lowest. It is wide, so that any number reaches its question.
#[derive(Clone, Copy)]
pub struct Signals {
    pub first: Reading,
    pub second: Reading,
    pub digital: u16,
}

// Two output readings, and the thirteen output bits as a number, Q00 lowest. The fields stand here too, for who reads outputs would otherwise write `signals.first`.
#[derive(Clone, Copy)]
pub struct Outputs {
    pub first: Reading,
    pub second: Reading,
    pub digital: u16,
    ghost few: { digital < 8192 },
}

impl TryFrom<Signals> for Outputs {
    ghost use Rattle.terminals.specs.Rules.{outputs_rule, outputs_told};

    type Error = PutRefusal;

    ghost try_from_gives = { λ s r. outputs_told r ≡ outputs_rule s };

    fn try_from(signals: Signals) -> Result<Outputs, PutRefusal> {
        if signals.digital >= 8192 {
            return Err(PutRefusal::DigitalOver);
        }
        Ok(Outputs {
            first: signals.first,
            second: signals.second,
            digital: signals.digital,
        })
    }
}
