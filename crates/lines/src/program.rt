// A configuration with its sources resolved, as the cycle works it.
ghost use Rattle.std.specs.Prelude.{ℕ, slice_index_or};
ghost use Rattle.lines.specs.Programs.{SoundSources, idle_analog, idle_binary};

use crate::source::Source;
use commands::command::{Analog, Binary};
use readings::word::Word;

// The two sources of a line; one that its command does not use is the fixed number 0.
#[derive(Clone, Copy)]
pub struct Sources {
    pub a: Source,
    pub b: Source,
}

// A line of one side. FIX and FLX have their constant as the source a.
#[derive(Clone, Copy)]
pub struct Work<C> {
    pub command: C,
    pub sources: Sources,
}

// All lines as they are worked, and the table. Every constant in it is a reading.
#[derive(Clone, Copy)]
pub struct Program {
    pub binary: [Work<Binary>; 64],
    pub analog: [Work<Analog>; 192],
    pub table: Option<[Word; 17]>,
    ghost binary_sound: { (k : ℕ) → SoundSources (slice_index_or binary k idle_binary).sources },
    ghost analog_sound: { (k : ℕ) → SoundSources (slice_index_or analog k idle_analog).sources },
}
