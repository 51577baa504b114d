// The commands of the console.
use parcel::line::LineBytes;

#[derive(Clone, Copy)]
pub enum Command<'a> {
    Parcel(&'a str),
    Save(&'a str),
    Check,
    Lines,
    Trial { line: u8, new: LineBytes },
    Report,
    Help,
}

// What each command does.
pub const HELP: &str =
    "parcel FILE: read a file into the parcel buffer\nsave FILE: write the buffer to a file\ncheck: would load take the buffer?\nlines: list the lines of the parcel\ntrial XXH CCH AAH BBH: give line XXH the code CCH, SR1 AAH and SR2 BBH, if load would take that\nreport: what was done so far\nhelp: the commands\n";
