// The contents list of a parcel: what bodies it names, and where they begin.
ghost use Rattle.std.specs.Prelude.{◌≡◌, ◌+◌, ◌*◌, ◌<◌, ◌≤◌, length, IfOk, None, nat_le};
ghost use Rattle.parcel.specs.Contents.{begins, bodies_asked, ends, entries, entry_at, fresh, kind_of, kinds_lawful, lawful, named, places_of, present, size_of, sized};
ghost use Rattle.parcel.specs.Verdicts.{question, verdict};

use crate::refusal::Refusal;
use std::array;

// The kinds of bodies: codes, SR1 and SR2 by address, and the table's words.
#[derive(Clone, Copy, PartialEq, Eq)]
pub(crate) enum Kind {
    Codes,
    Sr1,
    Sr2,
    Table,
}

// One entry of the contents list; no kind stands for an unknown one.
#[derive(Clone, Copy)]
pub(crate) struct Entry {
    pub kind: Option<Kind>,
    pub size: u16,
}

// Where the bodies begin. Numbers and no slices, since a trial writes at them.
#[derive(Clone, Copy)]
pub(crate) struct Directory {
    pub codes: usize,
    pub sr1: usize,
    pub sr2: usize,
    pub table: Option<usize>,
}

impl Kind {
    // The kind that the byte stands for.
    fn of(byte: u8) -> Option<Kind>
        ensures { result ≡ kind_of byte }
    {
        match byte {
            1 => Some(Kind::Codes),
            2 => Some(Kind::Sr1),
            3 => Some(Kind::Sr2),
            4 => Some(Kind::Table),
            _ => None,
        }
    }
}

impl Entry {
    // Entry i of a parcel's list: a kind byte and a length.
    fn at(parcel: &[u8], i: usize) -> Entry
        requires { 3 * i + 3 < length parcel.now }
        ensures { result ≡ entry_at parcel.now i }
    {
        let at = 1 + 3 * i;
        Entry {
            kind: Kind::of(parcel[at]),
            size: u16::from_le_bytes([parcel[at + 1], parcel[at + 2]]),
        }
    }

    fn is(self, kind: Kind) -> bool
        ensures { result ≡ named kind self.kind }
    {
        self.kind == Some(kind)
    }

    // The length that a body of the entry's kind has.
    fn due(self) -> u16
        ensures { result ≡ size_of self.kind }
    {
        match self.kind {
            Some(Kind::Table) => 34,
            _ => 256,
        }
    }
}

// Is there a body of this kind?
fn has(entries: &[Entry], kind: Kind) -> bool
    ensures { result ≡ present kind entries.now }
{
    entries.iter().any(|e| e.is(kind))
}

// Is the entry's kind known, and in no other entry?
fn is_fresh(kind: Option<Kind>, others: &[Entry]) -> bool
    ensures { result ≡ fresh kind others.now }
{
    match kind {
        Some(kind) => !has(others, kind),
        None => false,
    }
}

// Is no kind unknown, and none there twice?
fn distinct(entries: &[Entry]) -> bool
    ensures { result ≡ lawful entries.now }
{
    let mut rest = entries;
    while let [e, others @ ..] = rest {
        if !is_fresh(e.kind, others) {
            return false;
        }
        rest = others;
    }
    true
}

// A contents list of N entries, which is all that stands before the bodies.
#[derive(Clone, Copy)]
pub(crate) struct Contents<const N: usize> {
    entries: [Entry; N],
    ghost few: { N ≤ 4 },
}

impl<const N: usize> Contents<N> {
    // The list that stands in a parcel, unless it is cut off.
    pub fn read(parcel: &[u8]) -> Result<Self, Refusal>
        requires { N ≤ 4 }
        ensures answer { verdict result ≡ question 12 None (nat_le (1 + 3 * N) (length parcel.now)) }
        ensures list { IfOk result (λ c. c.entries ≡ entries parcel.now N) }
    {
        if parcel.len() < 1 + 3 * N {
            return Err(Refusal::ListCut);
        }
        Ok(Contents {
            entries: array::from_fn(
                |i| -> Entry
                    requires { 3 * i + 3 < length parcel.now }
                    ensures { result ≡ entry_at parcel.entry.now i }
                { Entry::at(parcel, i) },
            ),
        })
    }

    // Has each body the length of its kind?
    fn sizes(&self) -> bool
        ensures { result ≡ sized self.now.entries }
    {
        self.entries.iter().all(|e| e.size == e.due())
    }

    // Where the last body ends.
    fn end(&self) -> usize
        ensures { result ≡ ends self.now.entries (1 + 3 * N) }
    {
        // tried as `map(..).sum()`: the proof that the sum fits did not close
        let mut at = 1 + 3 * N;
        for e in &self.entries {
            at += usize::from(e.size);
        }
        at
    }

    // Where the body of this kind begins.
    fn begin(&self, kind: Kind) -> usize
        ensures { result ≡ begins kind self.now.entries (1 + 3 * N) }
    {
        let mut at = 1 + 3 * N;
        for e in &self.entries {
            if e.is(kind) {
                return at;
            }
            at += usize::from(e.size);
        }
        at
    }

    // Are the kinds 1, 2 and 3 there, and no kind unknown or twice?
    fn kinds(&self) -> bool
        ensures { result ≡ kinds_lawful self.now.entries }
    {
        has(&self.entries, Kind::Codes)
            && has(&self.entries, Kind::Sr1)
            && has(&self.entries, Kind::Sr2)
            && distinct(&self.entries)
    }

    // Are the bodies lawful in a parcel of `len` bytes?
    pub fn ask(&self, len: usize) -> Result<(), Refusal>
        ensures { verdict result ≡ bodies_asked self.now.entries (1 + 3 * N) len }
    {
        if !self.kinds() {
            return Err(Refusal::BadKinds);
        }
        if !self.sizes() {
            return Err(Refusal::BadLengths);
        }
        if self.end() != len {
            return Err(Refusal::BadEnd);
        }
        Ok(())
    }

    // Where the bodies begin.
    pub fn directory(&self) -> Directory
        ensures { result ≡ places_of self.now.entries (1 + 3 * N) }
    {
        Directory {
            codes: self.begin(Kind::Codes),
            sr1: self.begin(Kind::Sr1),
            sr2: self.begin(Kind::Sr2),
            table: has(&self.entries, Kind::Table).then_some(self.begin(Kind::Table)),
        }
    }
}
