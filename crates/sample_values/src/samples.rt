// The sample values: proved of the definitions, and computed with the code that is proved against them.
ghost use Rattle.sample_values.specs.Samples.{Samples};
ghost use Rattle.std.specs.Prelude.{true, ◌≡◌};

use readings::word::Word;

// Do the words give their readings?
fn words_hold() -> bool
    ensures { result ≡ true }
{
    let plus = Word {
        low: 0x80,
        high: 0xBE,
    };
    let minus = Word {
        low: 0x80,
        high: 0x3E,
    };
    let point = Word {
        low: 0x43,
        high: 0x86,
    };
    let greatest = Word {
        low: 0xF3,
        high: 0xFC,
    };
    plus.reading().value() == 16000
        && minus.reading().value() == -16000
        && point.constant().value() == 1600
        && greatest.constant().value() == 31984
}

// Do the samples hold? The definitions give them all, and the code is proved against the definitions.
pub fn samples_hold() -> bool
    ensures defined { Samples }
    ensures computed { result ≡ true }
{
    words_hold()
}
