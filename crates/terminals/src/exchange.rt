// One exchange with the terminals, for every kind of them.
ghost use Rattle.std.specs.Prelude.{◌≡◌, ◌+◌, ◌%◌, is_ok, if◌then◌else◌};
ghost use Rattle.terminals.specs.Exchanges.{exchange_rule, exchange_told, take_rule};
ghost use Rattle.terminals.specs.Meaning.{asked};

use crate::faults::{Fault, PutRefusal};
use crate::interface::Terminals;
use crate::outputs::Signals;
use crate::scan::read_inputs;

// What a sample brought.
#[derive(Clone, Copy)]
pub struct Sampled {
    pub inputs: [i16; 8],
    pub bits: u16,
}

// Samples, and takes the inputs and bits if the link is up then.
pub fn take<T: Terminals>(t: &mut T) -> Result<Sampled, Fault>
    ensures answer { result ≡ take_rule (T.Terminals.link t.new) (T.Terminals.inputs t.new) (T.Terminals.bits t.new) }
    ensures outputs { T.Terminals.outputs t.new ≡ T.Terminals.outputs t.old }
    ensures tally { T.Terminals.tally t.new ≡ (T.Terminals.tally t.old + 1) % 256 }
{
    t.sample();
    t.link()?;
    let inputs = read_inputs(t);
    let bits = t.bits();
    Ok(Sampled { inputs, bits })
}

// Takes what a sample brings, and puts the outputs.
pub fn exchange<T: Terminals>(t: &mut T, signals: Signals) -> Result<Sampled, PutRefusal>
    ensures answer { exchange_told result ≡ exchange_rule signals.digital (T.Terminals.link t.new) (T.Terminals.inputs t.new) (T.Terminals.bits t.new) }
    ensures outputs { T.Terminals.outputs t.new ≡ (if is_ok result then asked signals else T.Terminals.outputs t.old) }
    ensures tally { T.Terminals.tally t.new ≡ (T.Terminals.tally t.old + 1) % 256 }
{
    let sampled = take(t)?;
    t.put(signals)?;
    Ok(sampled)
}
