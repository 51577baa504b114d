// Lines with their sources resolved.
ghost use Rattle.std.specs.Prelude.{◌≡◌, ℕ, ◌<◌, slice_index_or};
ghost use Rattle.lines.specs.Board.{command_in, command_of};
ghost use Rattle.lines.specs.Programs.{blank, constant_of, idle, sources_of, work_of};
ghost use Rattle.lines.specs.View.{nothing};

use crate::program::{Program, Sources, Work};
use crate::source::Source;
use commands::command::{Analog, Binary, Command, Operands};
use parcel::configuration::Configuration;
use parcel::line::Line;
use readings::word::Word;
use std::array;

const UNUSED: Source = Source::Fixed(0);

// The constant that a word writes.
fn constant(word: Word) -> Source
    ensures { result ≡ constant_of word.low word.high }
{
    Source::Fixed(i16::from(word.constant()))
}

impl Sources {
    // What the source bytes of a line name.
    fn of<C: Command>(line: Line<C>) -> Sources
        ensures { result ≡ sources_of (C.sources line.command) line.sr1 line.sr2 }
    {
        let (a, b) = match line.command.operands() {
            Operands::Unused => (UNUSED, UNUSED),
            Operands::Constant => (constant(line.word()), UNUSED),
            Operands::First(kind) => (Source::of(kind, line.sr1), UNUSED),
            Operands::Both(first, second) => (
                Source::of(first, line.sr1),
                Source::of(second, line.sr2),
            ),
        };
        Sources { a, b }
    }
}

impl<C: Command> Work<C> {
    // The line with its sources resolved.
    fn of(line: Line<C>) -> Work<C>
        ensures { result ≡ work_of C.sources line }
    {
        Work {
            command: line.command,
            sources: Sources::of(line),
        }
    }

    // A line that does nothing.
    fn idle() -> Work<C>
        ensures { result ≡ idle C.idle }
    {
        Work {
            command: C::nop(),
            sources: Sources {
                a: UNUSED,
                b: UNUSED,
            },
        }
    }
}

// The lines of one side with their sources resolved.
fn works<C: Command, const N: usize>(lines: &[Line<C>; N]) -> [Work<C>; N]
    ensures { (k : ℕ) → slice_index_or result k (idle C.idle) ≡ work_of C.sources (slice_index_or lines.now k (blank C.idle)) }
{
    array::from_fn(
        |i| -> Work<C>
            requires { i < N }
            ensures { result ≡ work_of C.sources (slice_index_or lines.entry.now i (blank C.idle)) }
        { Work::of(lines[i]) },
    )
}

impl Program {
    // The program of a configuration.
    pub fn of(configuration: &Configuration) -> Program
        ensures { command_of result ≡ command_in configuration.now }
    {
        Program {
            binary: works(&configuration.binary),
            analog: works(&configuration.analog),
            table: configuration.table,
        }
    }

    // Every line holds.
    pub fn empty() -> Program
        ensures { command_of result ≡ nothing }
    {
        Program {
            binary: [Work::<Binary>::idle(); 64],
            analog: [Work::<Analog>::idle(); 192],
            table: None,
        }
    }
}
