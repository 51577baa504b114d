// What is listed of a line's two source bytes, or of a table's word.
ghost use Rattle.listing.specs.Operands.{operand_of, operand_text, word_text, written_of};
ghost use Rattle.std.specs.Prelude.{◌≡◌, Some};

use commands::command::{Command, Operands};
use notation::hex::Hex;
use notation::percent::Percent;
use parcel::line::Line;
use readings::word::Word;
use std::fmt;

// A word in percent, or its two bytes where it is no whole number of tenths or places a decimal point. No Result: neither is
// an error.
#[derive(Clone, Copy)]
pub enum Written {
    Number(Percent),
    Bytes(Word),
}

impl From<Word> for Written {
    ghost from_gives = { λ word x. x ≡ written_of word };

    fn from(word: Word) -> Written {
        match Percent::of(word.reading()) {
            Some(percent) => Written::Number(percent),
            None => Written::Bytes(word),
        }
    }
}

impl fmt::Display for Written {
    ghost output = { λ x. Some (word_text x) };

    fn fmt<W: fmt::Write>(&self, f: &mut fmt::Formatter<W>) -> fmt::Result {
        match *self {
            Written::Number(percent) => write!(f, "{percent}"),
            Written::Bytes(word) => {
                let low = Hex(word.low);
                let high = Hex(word.high);
                write!(f, "{low}, {high}")
            }
        }
    }
}

// The operands of a row: one source, two bytes, or a constant.
#[derive(Clone, Copy)]
pub enum Operand {
    One(u8),
    Two(u8, u8),
    Constant(Written),
}

impl Operand {
    // None for an unused line whose bytes are zero.
    pub fn of<C: Command>(line: Line<C>) -> Option<Operand>
        ensures { result ≡ operand_of (C.sources line.command) line.sr1 line.sr2 }
    {
        let (sr1, sr2) = (line.sr1, line.sr2);
        match line.command.operands() {
            Operands::Unused if sr1 == 0 && sr2 == 0 => None,
            Operands::Constant => Some(Operand::Constant(Written::from(line.word()))),
            Operands::First(_) if sr2 == 0 => Some(Operand::One(sr1)),
            _ => Some(Operand::Two(sr1, sr2)),
        }
    }
}

impl fmt::Display for Operand {
    ghost output = { λ x. Some (operand_text x) };

    fn fmt<W: fmt::Write>(&self, f: &mut fmt::Formatter<W>) -> fmt::Result {
        match *self {
            Operand::One(a) => {
                let a = Hex(a);
                write!(f, "{a}")
            }
            Operand::Two(a, b) => {
                let a = Hex(a);
                let b = Hex(b);
                write!(f, "{a}, {b}")
            }
            Operand::Constant(Written::Number(percent)) => write!(f, "#{percent}"),
            Operand::Constant(bytes) => write!(f, "{bytes}"),
        }
    }
}
