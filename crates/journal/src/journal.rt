// What the console has done so far. Counts stop at their highest number.
ghost use Rattle.journal.specs.Journals.{Remembers, after_answer, after_read, after_save, after_wrong, answers_after, answers_text, any_wrong, blank, journal_text, moved, row_text, rows_text, traffic_text};
ghost use Rattle.std.specs.Prelude.{◌≡◌, Some};

use parcel::refusal::Refusal;
use std::fmt;

// One more than the highest number of a refusal.
const NUMBERS: usize = 25;

// Parcels that were read or saved, and their bytes.
#[derive(Clone, Copy, Default)]
struct Traffic {
    parcels: u32,
    bytes: u64,
}

// Questions about a parcel, and how they were answered.
#[derive(Clone, Copy, Default)]
struct Answers {
    given: u32,
    taken: u32,
    refused: u32,
}

// How often each refusal was given, by its number. No map: that would want memory, and a count may not fail.
#[derive(Clone, Copy, Default)]
struct Refusals([u32; NUMBERS]);

#[derive(Clone, Copy, Default)]
pub struct Journal {
    read: Traffic,
    saved: Traffic,
    answers: Answers,
    refusals: Refusals,
    wrong: u32,
}

impl Traffic {
    fn plus(self, bytes: usize) -> Traffic
        ensures { result ≡ moved self bytes }
    {
        Traffic {
            parcels: self.parcels.saturating_add(1),
            bytes: self.bytes.saturating_add(bytes as u64),
        }
    }
}

impl Answers {
    fn plus(self, answer: Result<(), Refusal>) -> Answers
        ensures { result ≡ answers_after self answer }
    {
        let given = self.given.saturating_add(1);
        match answer {
            Ok(()) => Answers {
                given,
                taken: self.taken.saturating_add(1),
                ..self
            },
            Err(_) => Answers {
                given,
                refused: self.refused.saturating_add(1),
                ..self
            },
        }
    }
}

impl Journal {
    pub fn new() -> Journal
        ensures { result ≡ blank }
    {
        Journal::default()
    }

    // A parcel of so many bytes was read.
    pub fn read(&mut self, bytes: usize)
        ensures { self.new ≡ after_read self.old bytes }
    {
        self.read = self.read.plus(bytes);
    }

    // The buffer was saved, so many bytes.
    pub fn saved(&mut self, bytes: usize)
        ensures { self.new ≡ after_save self.old bytes }
    {
        self.saved = self.saved.plus(bytes);
    }

    // A question about the parcel was answered.
    pub fn answered(&mut self, answer: Result<(), Refusal>)
        ensures { self.new ≡ after_answer self.old answer }
    {
        self.answers = self.answers.plus(answer);
        if let Err(refusal) = answer {
            let number = usize::from(refusal.number());
            self.refusals.0[number] = self.refusals.0[number].saturating_add(1);
        }
    }

    // A command was wrong.
    pub fn wrong(&mut self)
        ensures state { self.new ≡ after_wrong self.old }
        ensures remembers { Remembers self.old self.new }
    {
        self.wrong = self.wrong.saturating_add(1);
    }

    // Whether some command was wrong.
    pub fn any_wrong(&self) -> bool
        ensures { result ≡ any_wrong self.now }
    {
        self.wrong > 0
    }
}

impl fmt::Display for Traffic {
    ghost output = { λ x. Some (traffic_text x) };

    fn fmt<W: fmt::Write>(&self, f: &mut fmt::Formatter<W>) -> fmt::Result {
        write!(f, "{}, bytes {}", self.parcels, self.bytes)
    }
}

impl fmt::Display for Answers {
    ghost output = { λ x. Some (answers_text x) };

    fn fmt<W: fmt::Write>(&self, f: &mut fmt::Formatter<W>) -> fmt::Result {
        let Answers {
            given,
            taken,
            refused,
        } = *self;
        write!(f, "{given}: taken {taken}, refused {refused}")
    }
}

// The row of one refusal, or nothing where it was never given.
#[derive(Clone, Copy)]
struct Row {
    number: usize,
    count: u32,
}

impl fmt::Display for Row {
    ghost output = { λ x. Some (row_text x.number x.count) };

    fn fmt<W: fmt::Write>(&self, f: &mut fmt::Formatter<W>) -> fmt::Result {
        let Row { number, count } = *self;
        if count == 0 {
            return Ok(());
        }
        writeln!(f, "refusal {number}: {count}")
    }
}

// The rows of the refusals, by rising numbers.
impl fmt::Display for Refusals {
    ghost output = { λ x. Some (rows_text x.0 25) };

    fn fmt<W: fmt::Write>(&self, f: &mut fmt::Formatter<W>) -> fmt::Result {
        for (number, &count) in self.0.iter().enumerate() {
            write!(f, "{}", Row { number, count })?;
        }
        Ok(())
    }
}

impl fmt::Display for Journal {
    ghost output = { λ x. Some (journal_text x) };

    fn fmt<W: fmt::Write>(&self, f: &mut fmt::Formatter<W>) -> fmt::Result {
        let Journal {
            read,
            saved,
            answers,
            refusals,
            wrong,
        } = *self;
        writeln!(
            f,
            "parcels read {read}\nquestions answered {answers}\n{refusals}parcels saved {saved}\nwrong commands {wrong}"
        )
    }
}
