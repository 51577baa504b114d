// Why a parcel is refused.
ghost use Rattle.parcel.specs.Verdicts.{address_of, number_of};
ghost use Rattle.std.specs.Prelude.{◌≡◌};

// From `BadCode` on, a refusal names the line.
#[derive(Clone, Copy, PartialEq, Eq, Debug)]
pub enum Refusal {
    // the first byte is missing, or neither 3 nor 4
    BadCount,
    // the contents list is cut off
    ListCut,
    // a kind is missing, comes twice or is unknown
    BadKinds,
    // a body has another length than its kind's
    BadLengths,
    // the last body does not end at the last byte
    BadEnd,
    // the code is none of the line's side
    BadCode(u8),
    // a rate limiter, an integrator or a delay stands below 80H
    BadPlace(u8),
    // a table line, and the parcel brings no table
    NoTable(u8),
    // a constant beyond 199.9 %
    OverRange(u8),
}

impl Refusal {
    pub fn number(self) -> u8
        ensures { result ≡ number_of self }
    {
        match self {
            Refusal::BadCount => 11,
            Refusal::ListCut => 12,
            Refusal::BadKinds => 13,
            Refusal::BadLengths => 14,
            Refusal::BadEnd => 15,
            Refusal::BadCode(_) => 21,
            Refusal::BadPlace(_) => 22,
            Refusal::NoTable(_) => 23,
            Refusal::OverRange(_) => 24,
        }
    }

    // The line that the refusal names.
    pub fn address(self) -> Option<u8>
        ensures { result ≡ address_of self }
    {
        match self {
            Refusal::BadCode(line)
            | Refusal::BadPlace(line)
            | Refusal::NoTable(line)
            | Refusal::OverRange(line) => Some(line),
            _ => None,
        }
    }
}
