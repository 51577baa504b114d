// What both ends keep and answer alike.
ghost use Rattle.std.specs.Prelude.{◌≡◌, ◌+◌, ◌%◌, ◌<◌, IfOk, is_ok, if◌then◌else◌};
ghost use Rattle.ends.specs.Places.{place_rule};
ghost use Rattle.terminals.specs.Meaning.{asked, no_outputs, values};
ghost use Rattle.terminals.specs.Rules.{put_rule, put_told};

use readings::reading::Reading;
use terminals::faults::{Fault, NoSuchInput, PutRefusal};
use terminals::outputs::{Outputs, Signals};

// What was put last, and how often the end sampled.
#[derive(Drop)]
pub(crate) struct Panel {
    outputs: Outputs,
    tally: u8,
    ghost tally_lawful: { tally < 256 },
}

impl Panel {
    pub(crate) fn new() -> Panel
        ensures outputs { values result.outputs ≡ no_outputs }
        ensures tally { result.tally ≡ 0 }
    {
        let zero = Reading::nearest(0);
        Panel {
            outputs: Outputs {
                first: zero,
                second: zero,
                digital: 0,
            },
            tally: 0,
        }
    }

    // Counts a sample.
    pub(crate) fn count(&mut self)
        ensures outputs { self.new.outputs ≡ self.old.outputs }
        ensures tally { self.new.tally ≡ (self.old.tally + 1) % 256 }
    {
        self.tally = self.tally.wrapping_add(1);
    }

    pub(crate) fn outputs(&self) -> Outputs
        ensures { result ≡ self.now.outputs }
    {
        self.outputs
    }

    pub(crate) fn tally(&self) -> u8
        ensures { result ≡ self.now.tally }
    {
        self.tally
    }

    // Keeps the signals as outputs, unless they or the link refuse.
    pub(crate) fn put(
        &mut self,
        signals: Signals,
        link: Result<(), Fault>,
    ) -> Result<(), PutRefusal>
        ensures answer { put_told result ≡ put_rule signals.digital link }
        ensures outputs { values self.new.outputs ≡ (if is_ok result then asked signals else values self.old.outputs) }
        ensures tally { self.new.tally ≡ self.old.tally }
    {
        let outputs = Outputs::try_from(signals)?;
        link?;
        self.outputs = outputs;
        Ok(())
    }
}

// The place from 0 of the input with that number.
pub(crate) fn place_of(number: u8) -> Result<usize, NoSuchInput>
    ensures place { result ≡ place_rule number }
    ensures below { IfOk result (λ p. p < 8) }
{
    if number < 1 || number > 8 {
        return Err(NoSuchInput);
    }
    Ok(usize::from(number) - 1)
}
