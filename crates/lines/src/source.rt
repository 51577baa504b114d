// What the two source bytes of a line name.
ghost use Rattle.lines.specs.Sources.{bit_source, reading_source, source_of};
ghost use Rattle.std.specs.Prelude.{◌≡◌};

use commands::command::SourceKind;

// A line by its address, an input by its place from 0, a switch bit by its number, or a number that stays.
#[derive(Clone, Copy, PartialEq, Eq, Debug)]
pub enum Source {
    Fixed(i16),
    Line(u8),
    Input(u8),
    Switch(u8),
}

impl Source {
    // What an address names, by what the source is.
    pub(crate) fn of(kind: SourceKind, address: u8) -> Source
        ensures { result ≡ source_of kind address }
    {
        match kind {
            SourceKind::Reading => Source::reading(address),
            SourceKind::Bit => Source::bit(address),
        }
    }

    // An address as an analog source.
    fn reading(address: u8) -> Source
        ensures { result ≡ reading_source address }
    {
        match address {
            0x40..=0xFF => Source::Line(address),
            0x38..=0x3F => Source::Input(0x3F - address),
            0x20 => Source::Fixed(16000),
            _ => Source::Fixed(0),
        }
    }

    // An address as a bit source.
    fn bit(address: u8) -> Source
        ensures { result ≡ bit_source address }
    {
        match address {
            0x00..=0x3F => Source::Line(address),
            0xA0 => Source::Switch(0),
            0xF8..=0xFF => Source::Switch(address - 0xF7),
            0xBD => Source::Fixed(1),
            _ => Source::Fixed(0),
        }
    }
}
