// What a machine holds.
ghost use Rattle.machine.specs.Sound.{AllSound};

use crate::values::Values;
use lines::program::Program;
use timing::phase::Phase;

#[derive(Clone, Copy, PartialEq, Eq, Debug)]
pub enum Mode {
    // no configuration was loaded yet
    Empty,
    Stopped,
    Running,
}

#[derive(Drop)]
pub struct Machine {
    pub(crate) mode: Mode,
    pub(crate) program: Program,
    pub(crate) values: Values,
    pub(crate) phase: Phase,
    ghost sound: { AllSound program.analog values.analog },
}
