// The work of all lines in one cycle.
ghost use Rattle.std.specs.Prelude.{◌≡◌, ◌+◌, ◌<◌};
ghost use Rattle.lines.specs.Board.{command_of};
ghost use Rattle.lines.specs.Order.{descending};
ghost use Rattle.machine.specs.Cycle.{worked_at};
ghost use Rattle.machine.specs.Lines.{binary_held, brought, lines_of};
ghost use Rattle.machine.specs.State.{decided, line_worked, state_of, swept_lines};

use crate::sample::Sample;
use crate::state::Machine;
use crate::work::worked;
use lines::work::work_binary;

impl Machine {
    // Works the analog line at this place from 40H on what stands.
    fn work_place(&mut self, place: usize, sample: &Sample)
        requires { place < 192 }
        ensures { state_of self.new ≡ line_worked (brought sample.now) (64 + place) (state_of self.old) }
    {
        let work = self.program.analog[place];
        let a = self.number(work.sources.a, sample);
        let b = self.number(work.sources.b, sample);
        let own = self.values.analog[place];
        self.values.analog[place] = worked(work, &self.program.table, self.phase, a, b, own);
    }

    // The binary line at this address, worked from what stands.
    fn work_bit(&self, line: usize, sample: &Sample) -> bool
        requires { line < 64 }
        ensures { binary_held result ≡ worked_at (command_of self.now.program) self.now.phase.number (brought sample.now) (lines_of self.now.values) line }
    {
        let work = self.program.binary[line];
        let a = self.number(work.sources.a, sample);
        let b = self.number(work.sources.b, sample);
        work_binary(work, a, b, self.values.bits[line])
    }

    // Works the analog lines from the highest address down, each on what stands then.
    pub(crate) fn sweep(&mut self, sample: &Sample)
        ensures { state_of self.new ≡ swept_lines (brought sample.now) descending (state_of self.old) }
    {
        // By place and from the last, as the order of the sweep is, and in place.
        for place in (0..192).rev() {
            self.work_place(place, sample);
        }
    }

    // Gives all binary lines their new bits, each from what stood before.
    pub(crate) fn decide(&mut self, sample: &Sample)
        ensures { state_of self.new ≡ decided (brought sample.now) (state_of self.old) }
    {
        let mut bits = [false; 64];
        for line in 0..64 {
            bits[line] = self.work_bit(line, sample);
        }
        self.values.bits = bits;
    }
}
