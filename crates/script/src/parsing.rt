// From the words of a line to a command.
ghost use Rattle.script.specs.Commands.{byte_said, command_read, heard, objected, texts, trial_of, verb_said};
ghost use Rattle.std.specs.Prelude.{◌≡◌};

use crate::command::Command;
use crate::complaint::Complaint;
use notation::hex::byte_of;
use parcel::line::LineBytes;

// The first word of a command.
#[derive(Clone, Copy)]
enum Verb {
    Parcel,
    Save,
    Check,
    Lines,
    Trial,
    Report,
    Help,
}

impl<'a> TryFrom<&'a str> for Verb {
    type Error = Complaint<'a>;

    ghost try_from_gives = { λ w r. objected r ≡ verb_said w.now };

    fn try_from(word: &'a str) -> Result<Verb, Complaint<'a>> {
        match word {
            "parcel" => Ok(Verb::Parcel),
            "save" => Ok(Verb::Save),
            "check" => Ok(Verb::Check),
            "lines" => Ok(Verb::Lines),
            "trial" => Ok(Verb::Trial),
            "report" => Ok(Verb::Report),
            "help" => Ok(Verb::Help),
            _ => Err(Complaint::Unknown(word)),
        }
    }
}

fn byte(word: &str) -> Result<u8, Complaint<'_>>
    ensures { objected result ≡ byte_said word.now }
{
    byte_of(word).ok_or(Complaint::NotByte(word))
}

fn trial<'a>(
    line: &'a str,
    code: &'a str,
    sr1: &'a str,
    sr2: &'a str,
) -> Result<Command<'a>, Complaint<'a>>
    ensures { heard result ≡ trial_of (byte_said line.now) (byte_said code.now) (byte_said sr1.now) (byte_said sr2.now) }
{
    Ok(Command::Trial {
        line: byte(line)?,
        new: LineBytes {
            code: byte(code)?,
            sr1: byte(sr1)?,
            sr2: byte(sr2)?,
        },
    })
}

pub fn parse<'a>(words: &[&'a str]) -> Result<Command<'a>, Complaint<'a>>
    ensures { heard result ≡ command_read (texts words.now) }
{
    let [word, rest @ ..] = words else {
        return Err(Complaint::Unknown(""));
    };
    match (Verb::try_from(*word)?, rest) {
        (Verb::Parcel, [file]) => Ok(Command::Parcel(file)),
        (Verb::Save, [file]) => Ok(Command::Save(file)),
        (Verb::Check, []) => Ok(Command::Check),
        (Verb::Lines, []) => Ok(Command::Lines),
        (Verb::Trial, [line, code, sr1, sr2]) => trial(line, code, sr1, sr2),
        (Verb::Report, []) => Ok(Command::Report),
        (Verb::Help, []) => Ok(Command::Help),
        _ => Err(Complaint::WordCount(word)),
    }
}
