// What a link that is down reports, and the refusals of the terminals.
ghost use Rattle.terminals.specs.declared.faults.PutRefusal.TheVariants.{LinkDown};
ghost use Rattle.std.specs.Prelude.{◌≡◌};

// A fault: its cause from 1, the input that it names if it names one, and how many stages it has passed.
#[derive(Clone, Copy, PartialEq, Eq, Debug)]
pub struct Fault {
    pub cause: u8,
    pub input: Option<u8>,
    pub distance: u8,
}

// The number of an input is not from 1 to 8.
#[derive(Clone, Copy, PartialEq, Eq, Debug)]
pub struct NoSuchInput;

#[derive(Clone, Copy, PartialEq, Eq, Debug)]
pub enum PutRefusal {
    // The output bits as a number are not below 8192.
    DigitalOver,
    // The link is down.
    LinkDown(Fault),
}

impl From<Fault> for PutRefusal {
    ghost from_gives = { λ f r. r ≡ LinkDown f };

    fn from(value: Fault) -> PutRefusal {
        PutRefusal::LinkDown(value)
    }
}
