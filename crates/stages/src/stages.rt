// Stages: terminals that stand over other terminals.
ghost use Rattle.std.specs.Prelude.{◌≡◌, ◌+◌, ◌%◌, is_ok, if◌then◌else◌};
ghost use Rattle.terminals.specs.Frames.{frame_rule, frame_told};
ghost use Rattle.terminals.specs.Meaning.{asked};
ghost use Rattle.terminals.specs.Rules.{put_rule, put_told};

use crate::choice::Choice;
use crate::rules::{Flooring, Rule, Watching};
use readings::reading::Reading;
use terminals::faults::{Fault, NoSuchInput, PutRefusal};
use terminals::frames::{Frame, FrameRefusal};
use terminals::framing::Framed;
use terminals::interface::Terminals;
use terminals::outputs::{Outputs, Signals};

// Terminals as a rule shows those below.
#[derive(Drop)]
pub struct Stage<T, R> {
    below: T,
    rule: R,
}

// Shows chosen inputs below 0 as 0.
pub type Floor<T> = Stage<T, Flooring>;

// Has a fault of its own while a chosen input is under -1600.
pub type Watch<T> = Stage<T, Watching>;

impl<T: Terminals> Stage<T, Flooring> {
    // Input 1 is the lowest bit of `chosen`.
    pub fn new(below: T, chosen: u8) -> Floor<T>
        ensures below { result.below ≡ below }
        ensures chosen { result.rule.chosen.0 ≡ chosen }
    {
        let chosen = Choice(chosen);
        Stage {
            below,
            rule: Flooring { chosen },
        }
    }
}

// Not one `new` for both: a rule would come of a choice through one more public trait, whose contract says what these two do.
impl<T: Terminals> Stage<T, Watching> {
    // Input 1 is the lowest bit of `chosen`.
    pub fn new(below: T, chosen: u8) -> Watch<T>
        ensures below { result.below ≡ below }
        ensures chosen { result.rule.chosen.0 ≡ chosen }
    {
        let chosen = Choice(chosen);
        Stage {
            below,
            rule: Watching { chosen },
        }
    }
}

impl<T: Terminals, R: Rule> Terminals for Stage<T, R> {
    ghost inputs = { λ s. R.Rule.inputs s.rule (T.Terminals.inputs s.below) };

    ghost bits = { λ s. T.Terminals.bits s.below };

    ghost outputs = { λ s. T.Terminals.outputs s.below };

    ghost tally = { λ s. T.Terminals.tally s.below };

    ghost link = { λ s. R.Rule.link s.rule (T.Terminals.inputs s.below) (T.Terminals.link s.below) };

    ghost ranges = { λ t.
        let r = T.Terminals.ranges t.below in
        let zs = T.Terminals.inputs t.below in
        record {
          eight = R.Rule.eight t.rule zs r.eight;
          readings = R.Rule.readings t.rule zs r.readings;
          nine = r.nine;
          first = r.first;
          second = r.second;
          thirteen = r.thirteen;
          byte = r.byte;
          fault = R.Rule.fault t.rule zs (T.Terminals.link t.below) r.eight r.fault;
        } };

    fn sample(&mut self)
        ensures outputs { T.Terminals.outputs self.new.below ≡ T.Terminals.outputs self.old.below }
        ensures tally { T.Terminals.tally self.new.below ≡ (T.Terminals.tally self.old.below + 1) % 256 }
        ensures rule { self.new.rule ≡ self.old.rule }
    {
        self.below.sample();
    }

    fn input(&self, number: u8) -> Result<Reading, NoSuchInput> {
        self.rule.input(&self.below, number)
    }

    fn bits(&self) -> u16 {
        self.below.bits()
    }

    fn outputs(&self) -> Outputs {
        self.below.outputs()
    }

    fn tally(&self) -> u8 {
        self.below.tally()
    }

    fn link(&self) -> Result<(), Fault> {
        self.rule.link(&self.below)
    }

    fn put(&mut self, signals: Signals) -> Result<(), PutRefusal>
        ensures answer { put_told result ≡ put_rule signals.digital (R.Rule.link self.old.rule (T.Terminals.inputs self.old.below) (T.Terminals.link self.old.below)) }
        ensures outputs { T.Terminals.outputs self.new.below ≡ (if is_ok result then asked signals else T.Terminals.outputs self.old.below) }
        ensures inputs { R.Rule.inputs self.new.rule (T.Terminals.inputs self.new.below) ≡ R.Rule.inputs self.old.rule (T.Terminals.inputs self.old.below) }
        ensures bits { T.Terminals.bits self.new.below ≡ T.Terminals.bits self.old.below }
        ensures tally { T.Terminals.tally self.new.below ≡ T.Terminals.tally self.old.below }
        ensures link { R.Rule.link self.new.rule (T.Terminals.inputs self.new.below) (T.Terminals.link self.new.below) ≡ R.Rule.link self.old.rule (T.Terminals.inputs self.old.below) (T.Terminals.link self.old.below) }
        ensures rule { self.new.rule ≡ self.old.rule }
    {
        Outputs::try_from(signals)?;
        self.link()?;
        self.below.put(signals)
    }
}

impl<T: Framed, R: Rule> Framed for Stage<T, R> {
    ghost next = { λ s. T.Framed.next s.below };

    fn frame(&mut self, frame: Frame) -> Result<(), FrameRefusal>
        ensures answer { frame_told result ≡ frame_rule frame }
        ensures next { T.Framed.next self.new.below ≡ (if is_ok result then frame else T.Framed.next self.old.below) }
        ensures inputs { R.Rule.inputs self.new.rule (T.Terminals.inputs self.new.below) ≡ R.Rule.inputs self.old.rule (T.Terminals.inputs self.old.below) }
        ensures bits { T.Terminals.bits self.new.below ≡ T.Terminals.bits self.old.below }
        ensures outputs { T.Terminals.outputs self.new.below ≡ T.Terminals.outputs self.old.below }
        ensures tally { T.Terminals.tally self.new.below ≡ T.Terminals.tally self.old.below }
        ensures link { R.Rule.link self.new.rule (T.Terminals.inputs self.new.below) (T.Terminals.link self.new.below) ≡ R.Rule.link self.old.rule (T.Terminals.inputs self.old.below) (T.Terminals.link self.old.below) }
        ensures rule { self.new.rule ≡ self.old.rule }
    {
        self.below.frame(frame)
    }
}
