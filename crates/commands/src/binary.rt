// The commands of binary lines: their codes, names and sources.
ghost use Rattle.commands.specs.Codes.{binary_of};
ghost use Rattle.commands.specs.Properties.{binary_name, binary_operands};
ghost use Rattle.commands.specs.declared.command.Binary.TheVariants.{Nop};
ghost use Rattle.std.specs.Prelude.{refl};

use crate::command::SourceKind::{Bit, Reading};
use crate::command::{Binary, Command, Operands};

impl Command for Binary {
    ghost decoded = { binary_of };

    ghost idle = { Nop };

    ghost printed = { binary_name };

    ghost sources = { binary_operands };

    ghost idles = { refl };

    fn decode(code: u8) -> Option<Self> {
        Some(match code {
            0x00 => Binary::Nop,
            0x01 => Binary::Btn,
            0x02 => Binary::Bti,
            0x03 => Binary::Ann,
            0x04 => Binary::Ani,
            0x05 => Binary::Ain,
            0x06 => Binary::Aii,
            0x07 => Binary::Onn,
            0x08 => Binary::Oni,
            0x09 => Binary::Oin,
            0x0A => Binary::Oii,
            0x0B => Binary::Xnn,
            0x0C => Binary::Xni,
            0x0D => Binary::Frs,
            0xC0 => Binary::Cgt,
            0xC1 => Binary::Cgh,
            _ => return None,
        })
    }

    fn nop() -> Self {
        Self::Nop
    }

    fn name(self) -> &'static str {
        match self {
            Binary::Nop => "NOP",
            Binary::Btn => "BTN",
            Binary::Bti => "BTI",
            Binary::Ann => "ANN",
            Binary::Ani => "ANI",
            Binary::Ain => "AIN",
            Binary::Aii => "AII",
            Binary::Onn => "ONN",
            Binary::Oni => "ONI",
            Binary::Oin => "OIN",
            Binary::Oii => "OII",
            Binary::Xnn => "XNN",
            Binary::Xni => "XNI",
            Binary::Frs => "FRS",
            Binary::Cgt => "CGT",
            Binary::Cgh => "CGH",
        }
    }

    fn operands(self) -> Operands {
        match self {
            Binary::Nop => Operands::Unused,
            Binary::Btn | Binary::Bti => Operands::First(Bit),
            Binary::Cgt | Binary::Cgh => Operands::Both(Reading, Reading),
            _ => Operands::Both(Bit, Bit),
        }
    }
}
