// A byte as two capital hexadecimal digits and an H.
ghost use Rattle.std.specs.Prelude.{◌≡◌, ◌<◌, Some, IfSome};
ghost use Rattle.notation.specs.Bytes.{byte_read, byte_text, hex_read};

use std::fmt;

// The digit that a character writes; `to_digit` would take small letters too.
fn hex_value(c: u8) -> Option<u8>
    ensures value { result ≡ hex_read c }
    ensures bound { IfSome result (λ d. d < 16) }
{
    match c {
        b'0'..=b'9' => Some(c - b'0'),
        b'A'..=b'F' => Some(c - b'A' + 10),
        _ => None,
    }
}

// The byte that the word writes.
pub fn byte_of(word: &str) -> Option<u8>
    ensures { result ≡ byte_read word.now }
{
    let [high, low, b'H'] = word.as_bytes() else {
        return None;
    };
    let high = hex_value(*high)?;
    let low = hex_value(*low)?;
    Some(high * 16 + low)
}

// Shows a byte as `E2H`.
#[derive(Clone, Copy)]
pub struct Hex(pub u8);

impl fmt::Display for Hex {
    ghost output = { λ x. Some (byte_text x.0) };

    fn fmt<W: fmt::Write>(&self, f: &mut fmt::Formatter<W>) -> fmt::Result {
        let byte = self.0;
        write!(f, "{byte:02X}H")
    }
}
