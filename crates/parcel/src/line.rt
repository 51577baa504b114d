// A line: its bytes in a parcel, and what they say.
ghost use Rattle.parcel.specs.Words.{word_of};
ghost use Rattle.parcel.specs.Parcel.{line_of};
ghost use Rattle.std.specs.Prelude.{◌≡◌};

use commands::command::Command;
use readings::word::Word;

// A line as it stands in a parcel. No `Line<u8>`: its first byte is a code, and which command that is depends on the side.
#[derive(Clone, Copy, PartialEq, Eq, Debug)]
pub struct LineBytes {
    pub code: u8,
    pub sr1: u8,
    pub sr2: u8,
}

// A line of one side, binary or analog: its command and its source bytes.
#[derive(Clone, Copy)]
pub struct Line<C> {
    pub command: C,
    pub sr1: u8,
    pub sr2: u8,
}

// The word in two source bytes, the low byte first.
fn word_of(sr1: u8, sr2: u8) -> Word
    ensures { result ≡ word_of sr1 sr2 }
{
    Word {
        low: sr1,
        high: sr2,
    }
}

impl LineBytes {
    // The word in the source bytes.
    pub fn word(self) -> Word
        ensures { result ≡ word_of self.sr1 self.sr2 }
    {
        word_of(self.sr1, self.sr2)
    }

    // The line of a side; an unknown code, which no accepted parcel has, counts as NOP.
    pub(crate) fn line<C: Command>(self) -> Line<C>
        ensures { result ≡ line_of C.decoded C.idle self }
    {
        Line {
            command: C::decode(self.code).unwrap_or(C::nop()),
            sr1: self.sr1,
            sr2: self.sr2,
        }
    }
}

impl<C: Copy> Line<C> {
    // The word in the source bytes, which is a constant's in FIX and FLX.
    pub fn word(self) -> Word
        ensures { result ≡ word_of self.sr1 self.sr2 }
    {
        word_of(self.sr1, self.sr2)
    }
}
