// A plant model: input 1 follows output 1.
ghost use Rattle.std.specs.Prelude.{◌≡◌, ◌+◌, ◌%◌, ◌<◌, pos, Ok};
ghost use Rattle.ends.specs.Plants.{moved, plant_inputs};
ghost use Rattle.readings.specs.Range.{InRange};
ghost use Rattle.terminals.specs.Meaning.{values, no_outputs};
ghost use Rattle.std.proofs.Common.{rules, arith};

use crate::panel::{Panel, place_of};
use readings::reading::Reading;
use terminals::faults::{Fault, NoSuchInput, PutRefusal};
use terminals::interface::Terminals;
use terminals::outputs::{Outputs, Signals};

#[derive(Drop)]
pub struct Plant {
    level: Reading,
    panel: Panel,
}

impl Plant {
    pub fn new() -> Plant
        ensures level { result.level.value ≡ pos 0 }
        ensures outputs { values result.panel.outputs ≡ no_outputs }
        ensures tally { result.panel.tally ≡ 0 }
    {
        Plant {
            level: Reading::nearest(0),
            panel: Panel::new(),
        }
    }
}

// One sixteenth of the way, cut toward zero.
fn sixteenth(from: i32, to: i32) -> i32
    requires from_range { InRange from }
    requires to_range { InRange to }
    ensures value { result ≡ moved from to }
    ensures range { InRange result }
{
    from + (to - from) / 16
}

fn approach(level: Reading, target: Reading) -> Reading
    ensures { result.value ≡ moved level.value target.value }
{
    Reading::nearest(sixteenth(level.value(), target.value()))
}

impl Terminals for Plant {
    ghost inputs = { λ p. plant_inputs p.level.value };

    ghost bits = { λ _. 0 };

    ghost outputs = { λ p. values p.panel.outputs };

    ghost tally = { λ p. p.panel.tally };

    ghost link = { λ _. Ok tt };

    ghost ranges = { first_of (Prim.search rules, Prim.grind (arith, Self.row.coded.inj)) };

    fn sample(&mut self)
        ensures outputs { values self.new.panel.outputs ≡ values self.old.panel.outputs }
        ensures tally { self.new.panel.tally ≡ (self.old.panel.tally + 1) % 256 }
        ensures level { self.new.level.value ≡ moved self.old.level.value self.old.panel.outputs.first.value }
    {
        self.level = approach(self.level, self.panel.outputs().first);
        self.panel.count();
    }

    fn input(&self, number: u8) -> Result<Reading, NoSuchInput> {
        Ok(match place_of(number)? {
            0 => self.level,
            _ => Reading::nearest(0),
        })
    }

    fn bits(&self) -> u16 {
        0
    }

    fn outputs(&self) -> Outputs {
        self.panel.outputs()
    }

    fn tally(&self) -> u8 {
        self.panel.tally()
    }

    fn link(&self) -> Result<(), Fault> {
        Ok(())
    }

    fn put(&mut self, signals: Signals) -> Result<(), PutRefusal> {
        self.panel.put(signals, Ok(()))
    }
}
