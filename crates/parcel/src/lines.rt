// The questions about each line.
ghost use Rattle.parcel.specs.Lines.{analog_asked, line_asked, lines_asked, within_limit};
ghost use Rattle.parcel.specs.Verdicts.{address_of, number_of, question, verdict};
ghost use Rattle.std.specs.Prelude.{◌≡◌};

use crate::bodies::Bodies;
use crate::line::LineBytes;
use crate::refusal::Refusal;
use commands::command::{Analog, Binary, Command, Requirement};
use readings::reading::Reading;

// One question: a no gives its refusal.
fn ask(yes: bool, refusal: Refusal) -> Result<(), Refusal>
    ensures { verdict result ≡ question (number_of refusal) (address_of refusal) yes }
{
    if yes { Ok(()) } else { Err(refusal) }
}

// Is the constant within 199.9 %, both ways?
fn within_limit(bytes: LineBytes) -> bool
    ensures { result ≡ within_limit bytes }
{
    bytes.word().constant().value().abs() <= Reading::LIMIT
}

// The questions about an analog line, in a parcel with a table or without.
fn ask_analog(table: bool, line: u8, bytes: LineBytes) -> Result<(), Refusal>
    ensures { verdict result ≡ analog_asked table line bytes }
{
    let Some(command) = Analog::decode(bytes.code) else {
        return Err(Refusal::BadCode(line));
    };
    match command.requirement() {
        Requirement::Nothing => Ok(()),
        Requirement::UpperLine => ask(line >= 0x80, Refusal::BadPlace(line)),
        Requirement::Table => ask(table, Refusal::NoTable(line)),
        Requirement::Range => ask(within_limit(bytes), Refusal::OverRange(line)),
    }
}

// The questions about one line: those below 40H are binary, the others analog.
fn ask_line(table: bool, line: u8, bytes: LineBytes) -> Result<(), Refusal>
    ensures { verdict result ≡ line_asked table line bytes }
{
    if line < 0x40 {
        return ask(Binary::decode(bytes.code).is_some(), Refusal::BadCode(line));
    }
    ask_analog(table, line, bytes)
}

// The questions about each line, upward from 00H.
pub fn ask_lines(bodies: &Bodies) -> Result<(), Refusal>
    ensures { verdict result ≡ lines_asked bodies.now.parcel.now bodies.now.directory 256 }
{
    let table = bodies.directory.table.is_some();
    for line in 0..=255u8 {
        ask_line(table, line, bodies.line(line))?;
    }
    Ok(())
}
