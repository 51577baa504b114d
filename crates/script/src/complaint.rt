// Why a command is not carried out, where no parcel is to blame.
ghost use Rattle.script.specs.Complaints.{complaint_text};
ghost use Rattle.std.specs.Prelude.{Some};

use std::fmt;

#[derive(Clone, Copy)]
pub enum Complaint<'a> {
    Unknown(&'a str),
    WordCount(&'a str),
    NotByte(&'a str),
    CannotRead(&'a str),
    CannotWrite(&'a str),
    NotText,
    NoMemory,
}

impl fmt::Display for Complaint<'_> {
    ghost output = { λ x. Some (complaint_text x) };

    fn fmt<W: fmt::Write>(&self, f: &mut fmt::Formatter<W>) -> fmt::Result {
        match *self {
            Complaint::Unknown(word) => write!(f, "no command {word}"),
            Complaint::WordCount(verb) => write!(f, "wrong number of words for {verb}"),
            Complaint::NotByte(word) => write!(f, "{word} is not a byte such as E2H"),
            Complaint::CannotRead(file) => write!(f, "cannot read {file}"),
            Complaint::CannotWrite(file) => write!(f, "cannot write {file}"),
            Complaint::NotText => write!(f, "the line is not text"),
            Complaint::NoMemory => write!(f, "out of memory"),
        }
    }
}
