// What the stages make of the terminals below them.
ghost use Rattle.std.specs.Prelude.{◌≡◌, true, List, length, ℤ, Err, refl};
ghost use Rattle.std.proofs.Common.{◌∙◌};
ghost use Rattle.readings.specs.Range.{are_readings};
ghost use Rattle.stages.specs.Stages.{floored, passed_link, raised, watched_link};
ghost use Rattle.stages.specs.StageLaws.{floored_length, floored_readings, passed_sound, watched_sound};
ghost use Rattle.terminals.specs.Meaning.{IsLink, Link};
ghost use Rattle.terminals.specs.declared.faults.Fault.{Fault};
ghost use Rattle.terminals.specs.Rules.{input_rule, input_told};

use crate::choice::Choice;
use crate::faults::raised;
use readings::reading::Reading;
use terminals::faults::{Fault, NoSuchInput};
use terminals::interface::Terminals;
use terminals::scan::read_inputs;

pub trait Rule {
    // what it shows of the inputs below
    ghost inputs: { Self → List ℤ → List ℤ };

    // its link, over the inputs and the link below
    ghost link: { Self → List ℤ → Link → Link };

    fn input<T: Terminals>(&self, below: &T, number: u8) -> Result<Reading, NoSuchInput>
        ensures { input_told result ≡ input_rule number (inputs self.now (T.Terminals.inputs below.now)) };

    fn link<T: Terminals>(&self, below: &T) -> Result<(), Fault>
        ensures { result ≡ link self.now (T.Terminals.inputs below.now) (T.Terminals.link below.now) };

    // a fault from below comes first, one stage further up
    ghost raises: { (r : Self) (zs : List ℤ) (f : Fault) → link r zs (Err f) ≡ Err (raised f) };

    // what it shows, and its link, stay in range
    ghost eight: { (r : Self) (zs : List ℤ) → length zs ≡ 8 → length (inputs r zs) ≡ 8 };

    ghost readings: { (r : Self) (zs : List ℤ) → are_readings zs ≡ true → are_readings (inputs r zs) ≡ true };

    ghost fault: { (r : Self) (zs : List ℤ) (l : Link) → length zs ≡ 8 → IsLink l → IsLink (link r zs l) };
}

// The link below, its fault one stage further up.
fn passed<T: Terminals>(below: &T) -> Result<(), Fault>
    ensures { result ≡ passed_link (T.Terminals.link below.now) }
{
    below.link().map_err(raised)
}

// Shows chosen inputs below 0 as 0.
#[derive(Clone, Copy)]
pub struct Flooring {
    pub(crate) chosen: Choice,
}

impl Rule for Flooring {
    ghost inputs = { λ r. floored r.chosen.0 0 };

    ghost link = { λ r zs. passed_link };

    ghost raises = { λ r zs f. refl };

    ghost eight = { λ r zs e. floored_length r.chosen.0 0 zs ∙ e };

    ghost readings = { λ r. floored_readings r.chosen.0 0 };

    ghost fault = { λ r zs l e. passed_sound l };

    fn input<T: Terminals>(&self, below: &T, number: u8) -> Result<Reading, NoSuchInput> {
        let x = below.input(number)?;
        if self.chosen.has(number) && x.value() < 0 {
            return Ok(Reading::nearest(0));
        }
        Ok(x)
    }

    fn link<T: Terminals>(&self, below: &T) -> Result<(), Fault> {
        passed(below)
    }
}

// Has a fault of its own while a chosen input is under -1600; a fault from below comes first.
#[derive(Clone, Copy)]
pub struct Watching {
    pub(crate) chosen: Choice,
}

impl Rule for Watching {
    ghost inputs = { λ r zs. zs };

    ghost link = { λ r. watched_link r.chosen.0 };

    ghost raises = { λ r zs f. refl };

    ghost eight = { λ r zs e. e };

    ghost readings = { λ r zs h. h };

    ghost fault = { λ r. watched_sound r.chosen.0 };

    fn input<T: Terminals>(&self, below: &T, number: u8) -> Result<Reading, NoSuchInput> {
        below.input(number)
    }

    fn link<T: Terminals>(&self, below: &T) -> Result<(), Fault> {
        passed(below)?;
        match self.chosen.lowest_low(&read_inputs(below)) {
            None => Ok(()),
            Some(number) => Err(Fault {
                cause: 100,
                input: Some(number),
                distance: 0,
            }),
        }
    }
}
