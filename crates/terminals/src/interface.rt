// What every kind of terminals does.
ghost use Rattle.std.specs.Prelude.{◌≡◌, ℕ, ◌+◌, ◌%◌, List, ℤ, is_ok, if◌then◌else◌};
ghost use Rattle.terminals.specs.Meaning.{Lawful, Link, OutputValues, asked, values};
ghost use Rattle.terminals.specs.Rules.{input_told, input_rule, put_told, put_rule};

use crate::faults::{Fault, NoSuchInput, PutRefusal};
use crate::outputs::{Outputs, Signals};
use readings::reading::Reading;

pub trait Terminals {
    // the readings of inputs 1 to 8
    ghost inputs: { Self → List ℤ };

    // the bits D00 to D08 as a number, D00 lowest
    ghost bits: { Self → ℕ };

    // what was put last
    ghost outputs: { Self → OutputValues };

    // how often they sampled, modulo 256
    ghost tally: { Self → ℕ };

    // up, or a fault
    ghost link: { Self → Link };

    // Inputs, bits and link may change to anything in range.
    fn sample(&mut self)
        ensures outputs { outputs self.new ≡ outputs self.old }
        ensures tally { tally self.new ≡ (tally self.old + 1) % 256 };

    fn input(&self, number: u8) -> Result<Reading, NoSuchInput>
        ensures { input_told result ≡ input_rule number (inputs self.now) };

    fn bits(&self) -> u16
        ensures { result ≡ bits self.now };

    fn outputs(&self) -> Outputs
        ensures { values result ≡ outputs self.now };

    fn tally(&self) -> u8
        ensures { result ≡ tally self.now };

    fn link(&self) -> Result<(), Fault>
        ensures { result ≡ link self.now };

    fn put(&mut self, signals: Signals) -> Result<(), PutRefusal>
        ensures answer { put_told result ≡ put_rule signals.digital (link self.old) }
        ensures outputs { outputs self.new ≡ (if is_ok result then asked signals else outputs self.old) }
        ensures inputs { inputs self.new ≡ inputs self.old }
        ensures bits { bits self.new ≡ bits self.old }
        ensures tally { tally self.new ≡ tally self.old }
        ensures link { link self.new ≡ link self.old };

    ghost ranges: { (t : Self) → Lawful (inputs t) (bits t) (outputs t) (tally t) (link t) };
}
