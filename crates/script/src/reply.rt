// What the console answers to a command that it carried out.
ghost use Rattle.script.specs.Replies.{reason_of, reply_text};
ghost use Rattle.std.specs.Prelude.{◌≡◌, Some};

use notation::hex::Hex;
use parcel::refusal::Refusal;
use std::fmt;

#[derive(Clone, Copy)]
pub enum Reply {
    Done,
    Bytes(usize),
    Refused(Refusal),
}

// The reason in words. No Display: `Refusal` is a type of parcel, where that would have to stand.
fn reason(refusal: Refusal) -> &'static str
    ensures { result.now ≡ reason_of refusal }
{
    match refusal {
        Refusal::BadCount => "the first byte is not 3 or 4",
        Refusal::ListCut => "the contents list is cut off",
        Refusal::BadKinds => "the kinds are not 1, 2, 3 and at most one 4",
        Refusal::BadLengths => "a body has not the length of its kind",
        Refusal::BadEnd => "the last body does not end at the last byte",
        Refusal::BadCode(_) => "the line's side has no such code",
        Refusal::BadPlace(_) => "the command stands below 80H",
        Refusal::NoTable(_) => "the parcel brings no table",
        Refusal::OverRange(_) => "the constant is beyond 199.9 %",
    }
}

impl fmt::Display for Reply {
    ghost output = { λ x. Some (reply_text x) };

    fn fmt<W: fmt::Write>(&self, f: &mut fmt::Formatter<W>) -> fmt::Result {
        match *self {
            Reply::Done => write!(f, "ok"),
            Reply::Bytes(n) => write!(f, "ok {n} bytes"),
            Reply::Refused(refusal) => {
                let number = refusal.number();
                let reason = reason(refusal);
                match refusal.address() {
                    Some(line) => {
                        let line = Hex(line);
                        write!(f, "refused {number} at {line}: {reason}")
                    }
                    None => write!(f, "refused {number}: {reason}"),
                }
            }
        }
    }
}
