// Load's questions.
ghost use Rattle.parcel.specs.Bodies.{IsBodiesOf};
ghost use Rattle.parcel.specs.Contents.{bodies_asked, contents_asked, directory_of, entries, places_of};
ghost use Rattle.parcel.specs.Parcel.{asked};
ghost use Rattle.parcel.specs.Verdicts.{question, verdict, ◌then◌};
ghost use Rattle.std.specs.Prelude.{◌≡◌, ◌+◌, ◌*◌, ◌≤◌, length, IfOk, None, nat_le};

use crate::bodies::Bodies;
use crate::contents::Contents;
use crate::lines::ask_lines;
use crate::refusal::Refusal;

// The bodies that a list of N entries names.
fn listed<const N: usize>(parcel: &[u8]) -> Result<Bodies<'_>, Refusal>
    requires { N ≤ 4 }
    ensures answer { verdict result ≡ (question 12 None (nat_le (1 + 3 * N) (length parcel.now)) then bodies_asked (entries parcel.now N) (1 + 3 * N) (length parcel.now)) }
    ensures bodies { IfOk result (IsBodiesOf parcel.now (places_of (entries parcel.now N) (1 + 3 * N))) }
{
    let contents = Contents::<N>::read(parcel)?;
    contents.ask(parcel.len())?;
    Ok(Bodies {
        parcel,
        directory: contents.directory(),
    })
}

// The questions about the contents list; the bodies, if each is answered with yes.
fn bodies_of(parcel: &[u8]) -> Result<Bodies<'_>, Refusal>
    ensures answer { verdict result ≡ contents_asked parcel.now }
    ensures bodies { IfOk result (IsBodiesOf parcel.now (directory_of parcel.now)) }
{
    match parcel {
        [3, ..] => listed::<3>(parcel),
        [4, ..] => listed::<4>(parcel),
        _ => Err(Refusal::BadCount),
    }
}

// Load's questions, in their order; the bodies, if each is answered with yes.
pub(crate) fn questions(parcel: &[u8]) -> Result<Bodies<'_>, Refusal>
    ensures answer { verdict result ≡ asked parcel.now }
    ensures bodies { IfOk result (IsBodiesOf parcel.now (directory_of parcel.now)) }
{
    let bodies = bodies_of(parcel)?;
    ask_lines(&bodies)?;
    Ok(bodies)
}

// Would load take the parcel?
pub fn check(parcel: &[u8]) -> Result<(), Refusal>
    ensures { verdict result ≡ asked parcel.now }
{
    questions(parcel)?;
    Ok(())
}
