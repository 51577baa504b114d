// Terminals that can be given the frame which their next sample takes.
ghost use Rattle.std.specs.Prelude.{◌≡◌, is_ok, if◌then◌else◌};
ghost use Rattle.terminals.specs.Frames.{frame_told, frame_rule};
ghost use Rattle.terminals.specs.declared.frames.Frame.{Frame};

use crate::frames::{Frame, FrameRefusal};
use crate::interface::Terminals;

pub trait Framed: Terminals {
    // the frame last given
    ghost next: { Self → Frame };

    // What the terminals mean stays: only what the next sample brings may change.
    fn frame(&mut self, frame: Frame) -> Result<(), FrameRefusal>
        ensures answer { frame_told result ≡ frame_rule frame }
        ensures next { next self.new ≡ (if is_ok result then frame else next self.old) }
        ensures inputs { Self.Terminals.inputs self.new ≡ Self.Terminals.inputs self.old }
        ensures bits { Self.Terminals.bits self.new ≡ Self.Terminals.bits self.old }
        ensures outputs { Self.Terminals.outputs self.new ≡ Self.Terminals.outputs self.old }
        ensures tally { Self.Terminals.tally self.new ≡ Self.Terminals.tally self.old }
        ensures link { Self.Terminals.link self.new ≡ Self.Terminals.link self.old };
}
