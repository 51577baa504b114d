// Words: 16 bits that write a reading, the low byte in SR1 and the high byte in SR2.
ghost use Rattle.readings.specs.Words.{bits_of, constant_reading, word_reading};
ghost use Rattle.std.specs.Prelude.{◌≡◌};

use crate::reading::Reading;

#[derive(Clone, Copy, PartialEq, Eq, Debug)]
pub struct Word {
    pub low: u8,
    pub high: u8,
}

// The reading that a word's number writes.
fn reading_of(bits: u16) -> Reading
    ensures { result.value ≡ word_reading bits }
{
    Reading::signed(bits % 0x8000, bits >= 0x8000)
}

impl Word {
    // The word as a number.
    fn bits(self) -> u16
        ensures { result ≡ bits_of self }
    {
        u16::from_le_bytes([self.low, self.high])
    }

    // The reading that the word writes.
    pub fn reading(self) -> Reading
        ensures { result.value ≡ word_reading (bits_of self) }
    {
        reading_of(self.bits())
    }

    // The reading that the word writes in a FIX or FLX line, where its bits 0 and 1 place the decimal point.
    pub fn constant(self) -> Reading
        ensures { result.value ≡ constant_reading (bits_of self) }
    {
        reading_of(self.bits() / 4 * 4)
    }
}
