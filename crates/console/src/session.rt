// A conversation: line by line, until the input ends.
ghost use Rattle.console.specs.Desks.{Agrees, BufferAfter};
ghost use Rattle.journal.specs.Journals.{Remembers};
ghost use Rattle.std.specs.Prelude.{◌≡◌};

use crate::desk::Desk;
use listing::rows::listing;
use parcel::configuration::read;
use script::command::{Command, HELP};
use script::complaint::Complaint;
use script::parsing::parse;
use script::reply::Reply;
use std::io::{self, BufRead, Write};
use std::str::from_utf8;

// The rows of the listing, or the refusal alone.
fn list<I: BufRead + Drop, W: Write>(desk: &mut Desk<I, W>) -> io::Result<()>
    ensures same { desk.new.parcel ≡ desk.old.parcel }
    ensures agrees { Agrees desk.old.journal desk.old.failed → Agrees desk.new.journal desk.new.failed }
    ensures remembers { Remembers desk.old.journal desk.new.journal }
{
    let answer = read(desk.parcel.as_slice());
    if let Ok(configuration) = &answer {
        let Ok(rows) = listing(desk.rt.alloc(), configuration) else {
            return desk.complain(Complaint::NoMemory);
        };
        desk.out.write_all(rows.as_bytes())?;
    }
    let reply = desk.judge(answer.map(|_| ()));
    desk.reply(reply)
}

fn obey<I: BufRead + Drop, W: Write>(desk: &mut Desk<I, W>, command: Command<'_>) -> io::Result<()>
    ensures buffer { BufferAfter command.entry desk.old.parcel.items desk.new.parcel.items }
    ensures agrees { Agrees desk.old.journal desk.old.failed → Agrees desk.new.journal desk.new.failed }
    ensures remembers { Remembers desk.old.journal desk.new.journal }
{
    match command {
        Command::Parcel(file) => {
            let answer = desk.fetch(file);
            desk.answer(answer)
        }
        Command::Save(file) => {
            let answer = desk.save(file);
            desk.answer(answer)
        }
        Command::Check => {
            let reply = desk.check();
            desk.reply(reply)
        }
        Command::Lines => list(desk),
        Command::Trial { line, new } => {
            let reply = desk.trial(line, new);
            desk.reply(reply)
        }
        Command::Report => {
            write!(desk.out, "{}", desk.journal)?;
            desk.reply(Reply::Done)
        }
        Command::Help => {
            desk.out.write_all(HELP.as_bytes())?;
            desk.reply(Reply::Done)
        }
    }
}

// Answers one line, unless it is blank or a comment.
fn step<I: BufRead + Drop, W: Write>(desk: &mut Desk<I, W>, text: &str) -> io::Result<()>
    ensures agrees { Agrees desk.old.journal desk.old.failed → Agrees desk.new.journal desk.new.failed }
    ensures remembers { Remembers desk.old.journal desk.new.journal }
{
    if text.starts_with('#') {
        return Ok(());
    }
    let Ok(words) = text
        .split_whitespace()
        .collect::<Vec<&str>>(desk.rt.alloc())
    else {
        return desk.complain(Complaint::NoMemory);
    };
    if words.is_empty() {
        return Ok(());
    }
    match parse(words.as_slice()) {
        Ok(command) => obey(desk, command),
        Err(complaint) => desk.complain(complaint),
    }
}

// Answers every line of the input.
pub fn converse<I: BufRead + Drop, W: Write>(desk: &mut Desk<I, W>) -> io::Result<()>
    ensures agrees { Agrees desk.old.journal desk.old.failed → Agrees desk.new.journal desk.new.failed }
    ensures remembers { Remembers desk.old.journal desk.new.journal }
{
    // No `for` over the lines: it would hold them, and each is answered on the whole desk. No `while`: nothing that is
    // proved of a stream grows less.
    for _ in 0..u64::MAX {
        let Some(bytes) = desk.lines.next() else {
            break;
        };
        let bytes = bytes?;
        match from_utf8(bytes.as_slice()) {
            Ok(text) => step(desk, text)?,
            Err(_) => desk.complain(Complaint::NotText)?,
        }
        desk.out.flush()?;
    }
    Ok(())
}
