// What the console keeps: its streams, the parcel buffer, the journal, and whether a command was wrong.
ghost use Rattle.console.specs.Desks.{Agrees, after_reply, answer_of, reply_to, told};
ghost use Rattle.journal.specs.Journals.{Remembers, after_answer, after_read, after_save, after_wrong, blank};
ghost use Rattle.parcel.specs.Parcel.{asked};
ghost use Rattle.parcel.specs.Trial.{exchanged, kept, tried};
ghost use Rattle.script.specs.Commands.{cannot_read, cannot_write, objection};
ghost use Rattle.script.specs.declared.reply.Reply.TheVariants.{Done, Bytes};
ghost use Rattle.std.specs.Prelude.{◌≡◌, true, false, [], Ok, Err, MatchResult, OnErr, OnOk, vec_len};

use journal::journal::Journal;
use parcel::line::LineBytes;
use parcel::questions::check;
use parcel::refusal::Refusal;
use parcel::trial::trial;
use script::complaint::Complaint;
use script::reply::Reply;
use std::io::{BufRead, Split, Write};
use std::{fs, io};

#[derive(Drop)]
pub struct Desk<I, W> {
    pub rt: HostRuntime,
    pub lines: Split<I>,
    pub out: W,
    pub parcel: Vec<u8>,
    pub journal: Journal,
    // beside the count, so that a command which is counted and not complained of is refused
    pub failed: bool,
}

impl<I: BufRead + Drop, W: Write> Desk<I, W> {
    pub fn new(rt: HostRuntime, input: I, out: W) -> Desk<I, W>
        ensures buffer { result.parcel.items ≡ [] }
        ensures journal { result.journal ≡ blank }
        ensures failed { result.failed ≡ false }
    {
        let heap = rt.alloc();
        Desk {
            rt,
            lines: input.split(heap, b'\n'),
            out,
            parcel: Vec::new(heap),
            journal: Journal::new(),
            failed: false,
        }
    }

    // The file's bytes become the buffer.
    pub(crate) fn fetch<'a>(&mut self, file: &'a str) -> Result<Reply, Complaint<'a>>
        ensures reply { MatchResult result (λ x. x ≡ Bytes (vec_len self.new.parcel)) (λ e. objection e ≡ cannot_read file.now) }
        ensures read { OnOk result (self.new.journal ≡ after_read self.old.journal (vec_len self.new.parcel)) }
        ensures same { OnErr result (self.new.parcel ≡ self.old.parcel) }
        ensures unread { OnErr result (self.new.journal ≡ self.old.journal) }
        ensures failed { self.new.failed ≡ self.old.failed }
    {
        let bytes = fs::read(&self.rt, file).map_err(|_| Complaint::CannotRead(file))?;
        let n = bytes.len();
        self.parcel = bytes;
        self.journal.read(n);
        Ok(Reply::Bytes(n))
    }

    pub(crate) fn save<'a>(&mut self, file: &'a str) -> Result<Reply, Complaint<'a>>
        ensures reply { MatchResult result (λ x. x ≡ Done) (λ e. objection e ≡ cannot_write file.now) }
        ensures saved { OnOk result (self.new.journal ≡ after_save self.old.journal (vec_len self.old.parcel)) }
        ensures unsaved { OnErr result (self.new.journal ≡ self.old.journal) }
        ensures same { self.new.parcel ≡ self.old.parcel }
        ensures failed { self.new.failed ≡ self.old.failed }
    {
        fs::write(&self.rt, file, self.parcel.as_slice()).map_err(|_| Complaint::CannotWrite(
            file,
        ))?;
        self.journal.saved(self.parcel.len());
        Ok(Reply::Done)
    }

    // Notes the answer to a question about the parcel.
    pub(crate) fn judge(&mut self, answer: Result<(), Refusal>) -> Reply
        ensures value { result ≡ reply_to answer }
        ensures noted { self.new.journal ≡ after_answer self.old.journal answer }
        ensures same { self.new.parcel ≡ self.old.parcel }
        ensures failed { self.new.failed ≡ self.old.failed }
    {
        self.journal.answered(answer);
        match answer {
            Ok(()) => Reply::Done,
            Err(refusal) => Reply::Refused(refusal),
        }
    }

    pub(crate) fn check(&mut self) -> Reply
        ensures answer { told result ≡ asked self.old.parcel.items }
        ensures noted { self.new.journal ≡ after_answer self.old.journal (answer_of result) }
        ensures same { self.new.parcel ≡ self.old.parcel }
        ensures failed { self.new.failed ≡ self.old.failed }
    {
        let answer = check(self.parcel.as_slice());
        self.judge(answer)
    }

    pub(crate) fn trial(&mut self, line: u8, new: LineBytes) -> Reply
        ensures answer { told result ≡ tried self.old.parcel.items line new }
        ensures noted { self.new.journal ≡ after_answer self.old.journal (answer_of result) }
        ensures bytes { self.new.parcel.items ≡ kept (tried self.old.parcel.items line new) (exchanged self.old.parcel.items line new) self.old.parcel.items }
        ensures failed { self.new.failed ≡ self.old.failed }
    {
        let answer = trial(self.parcel.as_mut_slice(), line, new);
        self.judge(answer)
    }

    // Each of these writes one line.
    pub(crate) fn reply(&mut self, reply: Reply) -> io::Result<()>
        ensures same { self.new.parcel ≡ self.old.parcel }
        ensures noted { self.new.journal ≡ self.old.journal }
        ensures failed { self.new.failed ≡ self.old.failed }
    {
        writeln!(self.out, "{reply}")
    }

    pub(crate) fn complain(&mut self, complaint: Complaint<'_>) -> io::Result<()>
        ensures same { self.new.parcel ≡ self.old.parcel }
        ensures noted { self.new.journal ≡ after_wrong self.old.journal }
        ensures failed { self.new.failed ≡ true }
        ensures agrees { Agrees self.new.journal self.new.failed }
        ensures remembers { Remembers self.old.journal self.new.journal }
    {
        self.failed = true;
        self.journal.wrong();
        writeln!(self.out, "error: {complaint}")
    }

    pub(crate) fn answer(&mut self, answer: Result<Reply, Complaint<'_>>) -> io::Result<()>
        ensures same { self.new.parcel ≡ self.old.parcel }
        ensures noted { self.new.journal ≡ after_reply self.old.journal answer.entry }
        ensures failed { self.new.failed ≡ elim answer.entry [ Ok x ↦ self.old.failed | Err e ↦ true ] }
        ensures remembers { Remembers self.old.journal self.new.journal }
    {
        match answer {
            Ok(reply) => self.reply(reply),
            Err(complaint) => self.complain(complaint),
        }
    }
}
