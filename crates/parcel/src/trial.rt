// Trials: one line of a parcel is exchanged, and the old one put back if load would then refuse.
ghost use Rattle.std.specs.Prelude.{◌≡◌, length};
ghost use Rattle.parcel.specs.Parcel.{asked};
ghost use Rattle.parcel.specs.Trial.{exchanged, kept, tried, with_line, with_old};
ghost use Rattle.parcel.specs.Lines.{Inside};
ghost use Rattle.parcel.specs.Verdicts.{verdict};

use crate::bodies::Places;
use crate::line::LineBytes;
use crate::questions::{check, questions};
use crate::refusal::Refusal;

fn put(parcel: &mut [u8], at: Places, line: LineBytes)
    requires { Inside at (length parcel.old) }
    ensures { parcel.new ≡ with_line parcel.old at line }
{
    parcel[at.code] = line.code;
    parcel[at.sr1] = line.sr1;
    parcel[at.sr2] = line.sr2;
}

// A parcel with one line exchanged. An old line that is still held when the exchange ends is put back.
// That the places lie within the parcel stays a clause: a ghost field beside a `&mut` gets no proof where it is dropped.
struct Exchange<'a> {
    parcel: &'a mut [u8],
    at: Places,
    old: Option<LineBytes>,
}

impl Drop for Exchange<'_> {
    fn drop(self)
        requires { Inside self.at (length self.parcel.now) }
        ensures { self.exit.0.now ≡ with_old self.entry.parcel.now self.entry.at self.entry.old }
    {
        if let Some(old) = self.old {
            let at = self.at;
            put(self.parcel, at, old);
        }
        let Exchange {
            parcel: _,
            at: _,
            old: _,
        } = self;
    }
}

// What `check` answers about bytes that are lent for writing.
// The guard's proof needs the clause `same`: `check` called on its field was tried, and did not give it.
fn ask(parcel: &mut [u8]) -> Result<(), Refusal>
    ensures answer { verdict result ≡ asked parcel.old }
    ensures same { parcel.new ≡ parcel.old }
{
    check(parcel)
}

// Would load take the parcel with this line in place of its own? If so the new bytes stay, else the parcel is as before.
pub fn trial(parcel: &mut [u8], line: u8, new: LineBytes) -> Result<(), Refusal>
    ensures answer { verdict result ≡ tried parcel.old line new }
    ensures bytes { parcel.new ≡ kept (tried parcel.old line new) (exchanged parcel.old line new) parcel.old }
{
    let bodies = questions(parcel)?;
    let at = bodies.places(line);
    let old = bodies.line(line);
    put(parcel, at, new);
    let mut exchange = Exchange {
        parcel,
        at,
        old: Some(old),
    };
    ask(exchange.parcel)?;
    exchange.old = None;
    Ok(())
}
