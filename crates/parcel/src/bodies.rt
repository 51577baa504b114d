// The bodies of a parcel, where its contents list says that they lie.
ghost use Rattle.std.specs.Prelude.{◌≡◌, ◌+◌, ◌*◌, ◌<◌, ◌≤◌, length};
ghost use Rattle.parcel.specs.Contents.{Within};
ghost use Rattle.std.proofs.Props.{props};
ghost use Rattle.parcel.specs.Lines.{Inside, bytes_at, places_in};
ghost use Rattle.parcel.specs.Parcel.{line_of, lines_of, table_at, words_at};

use crate::contents::Directory;
use crate::line::{Line, LineBytes};
use commands::command::Command;
use readings::word::Word;
use std::array;

// A parcel, and where its bodies begin, which lie within it.
#[derive(Clone, Copy)]
pub(crate) struct Bodies<'a> {
    pub parcel: &'a [u8],
    pub directory: Directory,
    ghost within: { Within directory (length parcel.now) } by { Prim.hlevel props },
}

// Where the three bytes of a line stand in a parcel.
#[derive(Clone, Copy)]
pub(crate) struct Places {
    pub code: usize,
    pub sr1: usize,
    pub sr2: usize,
}

// The words of a table that begins at this byte.
fn words_at(parcel: &[u8], at: usize) -> [Word; 17]
    requires { at + 34 ≤ length parcel.now }
    ensures { result ≡ words_at parcel.now at 17 }
{
    array::from_fn(|i| Word {
        low: parcel[at + 2 * i],
        high: parcel[at + 2 * i + 1],
    })
}

impl Bodies<'_> {
    // Where the bytes of a line stand.
    pub fn places(&self, line: u8) -> Places
        ensures place { result ≡ places_in self.now.directory line }
        ensures inside { Inside result (length self.now.parcel.now) }
    {
        let line = usize::from(line);
        Places {
            code: self.directory.codes + line,
            sr1: self.directory.sr1 + line,
            sr2: self.directory.sr2 + line,
        }
    }

    // The bytes of a line.
    pub fn line(&self, line: u8) -> LineBytes
        ensures { result ≡ bytes_at self.now.parcel.now self.now.directory line }
    {
        let at = self.places(line);
        LineBytes {
            code: self.parcel[at.code],
            sr1: self.parcel[at.sr1],
            sr2: self.parcel[at.sr2],
        }
    }

    // N lines of one side, from the line `from` on.
    pub fn lines<C: Command, const N: usize>(&self, from: usize) -> [Line<C>; N]
        requires { from + N ≤ 256 }
        ensures { result ≡ lines_of C.decoded C.idle self.now.parcel.now self.now.directory from N }
    {
        array::from_fn(
            |i| -> Line<C>
                requires { from + i < 256 }
                ensures { result ≡ line_of C.decoded C.idle (bytes_at self.entry.now.parcel.now self.entry.now.directory (from + i)) }
            { self.line((from + i) as u8).line() },
        )
    }

    // The table's words, if there is one.
    pub fn table(&self) -> Option<[Word; 17]>
        ensures { result ≡ table_at self.now.parcel.now self.now.directory.table }
    {
        let parcel = self.parcel;
        self.directory.table.map(
            |at| -> [Word; 17]
                requires { at + 34 ≤ length parcel.now }
                ensures { result ≡ words_at parcel.entry.now at 17 }
            { words_at(parcel, at) },
        )
    }
}
