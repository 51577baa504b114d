// The rows of a listing.
ghost use Rattle.listing.specs.Rows.{command_text, line_text, listing_text, point_text, row_text, table_row_text, up_to};
ghost use Rattle.std.specs.Prelude.{◌≡◌, IfOk, Some, string_bytes};

use crate::operand::{Operand, Written};
use commands::command::Command;
use notation::hex::Hex;
use parcel::configuration::Configuration;
use parcel::line::Line;
use readings::word::Word;
use std::alloc::{AllocError, Global};
use std::fmt;

// A row of a line: its address, its command's name and its operands.
#[derive(Clone, Copy)]
struct Row {
    address: u8,
    name: &'static str,
    operand: Operand,
}

impl fmt::Display for Row {
    ghost output = { λ x. Some (row_text x.address x.name.now x.operand) };

    fn fmt<W: fmt::Write>(&self, f: &mut fmt::Formatter<W>) -> fmt::Result {
        let address = Hex(self.address);
        let name = self.name;
        let operand = self.operand;
        write!(f, "{address} : {name}, {operand}")
    }
}

// A row of the table: the point's number in two digits, and its word.
#[derive(Clone, Copy)]
struct TableRow {
    place: u8,
    word: Word,
}

impl fmt::Display for TableRow {
    ghost output = { λ x. Some (table_row_text x.place x.word) };

    fn fmt<W: fmt::Write>(&self, f: &mut fmt::Formatter<W>) -> fmt::Result {
        let place = self.place;
        let written = Written::from(self.word);
        write!(f, "TABLE {place:02} : {written}")
    }
}

// The text of a line's row, empty where the line is left out.
fn row_of<C: Command>(heap: Global, address: u8, line: Line<C>) -> Result<String, AllocError>
    ensures { IfOk result (λ t. string_bytes t ≡ command_text C.printed C.sources address line) }
{
    match Operand::of(line) {
        Some(operand) => {
            let row = Row {
                address,
                name: line.command.name(),
                operand,
            };
            format!(in heap; "{row}\n")
        }
        None => Ok(String::new(heap)),
    }
}

fn line_entry(heap: Global, configuration: &Configuration, line: u8) -> Result<String, AllocError>
    ensures { IfOk result (λ t. string_bytes t ≡ line_text configuration.now line) }
{
    if line < 0x40 {
        return row_of(heap, line, configuration.binary[usize::from(line)]);
    }
    row_of(heap, line, configuration.analog[usize::from(line) - 0x40])
}

fn lines(heap: Global, configuration: &Configuration) -> Result<String, AllocError>
    ensures { IfOk result (λ t. string_bytes t ≡ up_to (line_text configuration.now) 256) }
{
    let mut text = String::new(heap);
    for line in 0..=255u8 {
        let row = line_entry(heap, configuration, line)?;
        text.push_str(row.as_str())?;
    }
    Ok(text)
}

// No loop is shared with `lines`: the contract of a closure that can fail would be longer than a loop.
fn points(heap: Global, words: &[Word; 17]) -> Result<String, AllocError>
    ensures { IfOk result (λ t. string_bytes t ≡ up_to (point_text words.now) 17) }
{
    let mut text = String::new(heap);
    for (place, &word) in words.iter().enumerate() {
        let row = TableRow {
            place: place as u8,
            word,
        };
        let row = format!(in heap; "{row}\n")?;
        text.push_str(row.as_str())?;
    }
    Ok(text)
}

// A row for each line that says anything, upward from 00H, and then the table's points.
pub fn listing(heap: Global, configuration: &Configuration) -> Result<String, AllocError>
    ensures { IfOk result (λ t. string_bytes t ≡ listing_text configuration.now) }
{
    let mut text = lines(heap, configuration)?;
    if let Some(words) = &configuration.table {
        let rows = points(heap, words)?;
        text.push_str(rows.as_str())?;
    }
    Ok(text)
}
