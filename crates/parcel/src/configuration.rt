// The configuration that a parcel holds.
ghost use Rattle.std.specs.Prelude.{◌≡◌, IfOk};
ghost use Rattle.parcel.specs.Parcel.{asked, configured};
ghost use Rattle.parcel.specs.Verdicts.{verdict};

use crate::line::Line;
use crate::questions::questions;
use crate::refusal::Refusal;
use commands::command::{Analog, Binary};
use readings::word::Word;

// What an accepted parcel holds: the lines 00H to 3FH, the lines 40H to FFH, and the table's points if it brings them.
#[derive(Clone, Copy)]
pub struct Configuration {
    pub binary: [Line<Binary>; 64],
    pub analog: [Line<Analog>; 192],
    pub table: Option<[Word; 17]>,
}

// The configuration that a parcel holds, or why it is refused.
pub fn read(parcel: &[u8]) -> Result<Configuration, Refusal>
    ensures answer { verdict result ≡ asked parcel.now }
    ensures holds { IfOk result (λ c. c ≡ configured parcel.now) }
{
    let bodies = questions(parcel)?;
    Ok(Configuration {
        binary: bodies.lines(0x00),
        analog: bodies.lines(0x40),
        table: bodies.table(),
    })
}
