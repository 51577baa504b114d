// The commands of analog lines: their codes, names, sources, and what load asks of their lines.
ghost use Rattle.commands.specs.Codes.{analog_of};
ghost use Rattle.commands.specs.Properties.{analog_name, analog_operands, requirement_of};
ghost use Rattle.commands.specs.declared.command.Analog.TheVariants.{Nop};
ghost use Rattle.std.specs.Prelude.{◌≡◌, refl};

use crate::command::SourceKind::{Bit, Reading};
use crate::command::{Analog, Command, Operands, Requirement};
use crate::settings::{DIVISORS, FACTORS, RATES, divisor_names, factor_name, rate_name};

impl Command for Analog {
    ghost decoded = { analog_of };

    ghost idle = { Nop };

    ghost printed = { analog_name };

    ghost sources = { analog_operands };

    ghost idles = { refl };

    fn decode(code: u8) -> Option<Self> {
        Some(match code {
            0x00 => Analog::Nop,
            0x11 => Analog::Sol,
            0x13 => Analog::Sih,
            0x14 => Analog::Sil,
            0x15 => Analog::Szl,
            0x16 => Analog::Szh,
            0x3B => Analog::Abs,
            0x3C => Analog::Inv,
            0x3D => Analog::Dir,
            0x3E => Analog::Ma0,
            0x3F => Analog::Ma1,
            0x40 => Analog::Ma2,
            0x41 => Analog::Ma3,
            0x46 => Analog::Max,
            0x47 => Analog::Min,
            0x48 => Analog::Add,
            0x49 => Analog::Sub,
            0x4A => Analog::Mul,
            0x4B => Analog::Div,
            0x4C => Analog::Rez,
            0x4D => Analog::Qua,
            0x4E => Analog::Rad,
            0x50 => Analog::Ta0,
            // `as`: through `usize::from` the proof did not close
            0x58..=0x67 => Analog::Scale(FACTORS[code as usize - 0x58]),
            0x68..=0x73 => Analog::LimitRate(RATES[code as usize - 0x68]),
            0x74..=0x7B => Analog::Integrate(DIVISORS[code as usize - 0x74]),
            0xA4 => Analog::Fix,
            0xA5 => Analog::Flx,
            0xA7..=0xAE => Analog::Delay(DIVISORS[code as usize - 0xA7]),
            _ => return None,
        })
    }

    fn nop() -> Self {
        Self::Nop
    }

    fn name(self) -> &'static str {
        match self {
            Analog::Nop => "NOP",
            Analog::Sol => "SOL",
            Analog::Sih => "SIH",
            Analog::Sil => "SIL",
            Analog::Szl => "SZL",
            Analog::Szh => "SZH",
            Analog::Abs => "ABS",
            Analog::Inv => "INV",
            Analog::Dir => "DIR",
            Analog::Ma0 => "MA0",
            Analog::Ma1 => "MA1",
            Analog::Ma2 => "MA2",
            Analog::Ma3 => "MA3",
            Analog::Max => "MAX",
            Analog::Min => "MIN",
            Analog::Add => "ADD",
            Analog::Sub => "SUB",
            Analog::Mul => "MUL",
            Analog::Div => "DIV",
            Analog::Rez => "REZ",
            Analog::Qua => "QUA",
            Analog::Rad => "RAD",
            Analog::Ta0 => "TA0",
            Analog::Fix => "FIX",
            Analog::Flx => "FLX",
            Analog::Scale(factor) => factor_name(factor),
            Analog::LimitRate(rate) => rate_name(rate),
            Analog::Integrate(divisor) => divisor_names(divisor).0,
            Analog::Delay(divisor) => divisor_names(divisor).1,
        }
    }

    fn operands(self) -> Operands {
        match self {
            Analog::Nop => Operands::Unused,
            Analog::Fix | Analog::Flx => Operands::Constant,
            Analog::Abs | Analog::Inv | Analog::Dir => Operands::First(Reading),
            Analog::Ma0 | Analog::Ma1 | Analog::Ma2 | Analog::Ma3 => Operands::First(Reading),
            Analog::Rez | Analog::Qua | Analog::Rad => Operands::First(Reading),
            Analog::Ta0 | Analog::Scale(_) => Operands::First(Reading),
            Analog::Sol => Operands::Both(Reading, Bit),
            Analog::Sih | Analog::Sil | Analog::Szl | Analog::Szh => Operands::Both(Reading, Bit),
            _ => Operands::Both(Reading, Reading),
        }
    }
}

impl Analog {
    // What load asks of a line with this command.
    pub fn requirement(self) -> Requirement
        ensures { result ≡ requirement_of self }
    {
        match self {
            Analog::LimitRate(_) => Requirement::UpperLine,
            Analog::Integrate(_) => Requirement::UpperLine,
            Analog::Delay(_) => Requirement::UpperLine,
            Analog::Ta0 => Requirement::Table,
            Analog::Fix | Analog::Flx => Requirement::Range,
            _ => Requirement::Nothing,
        }
    }
}
