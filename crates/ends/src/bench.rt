// Terminals that show the frames they are given.
ghost use Rattle.std.specs.Prelude.{◌≡◌, ◌+◌, ◌%◌, ◌<◌, is_ok, if◌then◌else◌};
ghost use Rattle.ends.specs.Benches.{IsFrame, bench_link, zero_frame};
ghost use Rattle.terminals.specs.Meaning.{asked, no_outputs, values};
ghost use Rattle.terminals.specs.Rules.{put_rule, put_told};
ghost use Rattle.std.proofs.Common.{rules, arith};

use crate::numbers::all_readings;
use crate::panel::{Panel, place_of};
use readings::reading::Reading;
use terminals::faults::{Fault, NoSuchInput, PutRefusal};
use terminals::frames::{Frame, FrameRefusal};
use terminals::framing::Framed;
use terminals::interface::Terminals;
use terminals::outputs::{Outputs, Signals};

#[derive(Drop)]
pub struct Bench {
    shown: Frame,
    next: Frame,
    panel: Panel,
    ghost shown_lawful: { IsFrame shown },
    ghost next_lawful: { IsFrame next },
}

impl Bench {
    pub fn new() -> Bench
        ensures shown { result.shown ≡ zero_frame }
        ensures next { result.next ≡ zero_frame }
        ensures outputs { values result.panel.outputs ≡ no_outputs }
        ensures tally { result.panel.tally ≡ 0 }
    {
        let zero = Frame {
            inputs: [0; 8],
            bits: 0,
            cause: 0,
        };
        Bench {
            shown: zero,
            next: zero,
            panel: Panel::new(),
        }
    }
}

impl Terminals for Bench {
    ghost inputs = { λ b. b.shown.inputs };

    ghost bits = { λ b. b.shown.bits };

    ghost outputs = { λ b. values b.panel.outputs };

    ghost tally = { λ b. b.panel.tally };

    ghost link = { λ b. bench_link b.shown.cause };

    ghost ranges = { first_of (Prim.search rules, Prim.grind (arith, Self.row.coded.inj)) };

    fn sample(&mut self)
        ensures outputs { values self.new.panel.outputs ≡ values self.old.panel.outputs }
        ensures tally { self.new.panel.tally ≡ (self.old.panel.tally + 1) % 256 }
        ensures shown { self.new.shown ≡ self.old.next }
        ensures next { self.new.next ≡ self.old.next }
    {
        let next = self.next;
        self.shown = next;
        self.panel.count();
    }

    fn input(&self, number: u8) -> Result<Reading, NoSuchInput> {
        let place = place_of(number)?;
        Ok(Reading::nearest(self.shown.inputs[place]))
    }

    fn bits(&self) -> u16 {
        self.shown.bits as u16
    }

    fn outputs(&self) -> Outputs {
        self.panel.outputs()
    }

    fn tally(&self) -> u8 {
        self.panel.tally()
    }

    fn link(&self) -> Result<(), Fault> {
        if self.shown.cause == 0 {
            return Ok(());
        }
        Err(Fault {
            cause: self.shown.cause as u8,
            input: None,
            distance: 0,
        })
    }

    fn put(&mut self, signals: Signals) -> Result<(), PutRefusal>
        ensures answer { put_told result ≡ put_rule signals.digital (bench_link self.old.shown.cause) }
        ensures outputs { values self.new.panel.outputs ≡ (if is_ok result then asked signals else values self.old.panel.outputs) }
        ensures inputs { self.new.shown.inputs ≡ self.old.shown.inputs }
        ensures bits { self.new.shown.bits ≡ self.old.shown.bits }
        ensures tally { self.new.panel.tally ≡ self.old.panel.tally }
        ensures link { bench_link self.new.shown.cause ≡ bench_link self.old.shown.cause }
        ensures next { self.new.next ≡ self.old.next }
    {
        let link = self.link();
        self.panel.put(signals, link)
    }
}

impl Framed for Bench {
    ghost next = { λ b. b.next };

    fn frame(&mut self, frame: Frame) -> Result<(), FrameRefusal> {
        if !all_readings(&frame.inputs) {
            return Err(FrameRefusal::NotReadings);
        }
        if frame.bits >= 512 {
            return Err(FrameRefusal::BitsOver);
        }
        if frame.cause > 99 {
            return Err(FrameRefusal::CauseOver);
        }
        self.next = frame;
        Ok(())
    }
}
