// The commands, named as they are printed; `Analog` carries the setting that its code stands for.
ghost use Rattle.commands.specs.declared.command.Operands.TheVariants.{Unused};
ghost use Rattle.commands.specs.declared.command.Operands.{Operands};
ghost use Rattle.std.specs.Prelude.{◌≡◌, ℕ, List, Option};

use readings::settings::{Divisor, Factor, Rate};

// The commands of binary lines, 00H to 3FH.
#[derive(Clone, Copy, PartialEq, Eq, Debug)]
pub enum Binary {
    Nop,
    Btn,
    Bti,
    Ann,
    Ani,
    Ain,
    Aii,
    Onn,
    Oni,
    Oin,
    Oii,
    Xnn,
    Xni,
    Frs,
    Cgt,
    Cgh,
}

// The commands of analog lines, 40H to FFH.
#[derive(Clone, Copy, PartialEq, Eq, Debug)]
pub enum Analog {
    Nop,
    Sol,
    Sih,
    Sil,
    Szl,
    Szh,
    Abs,
    Inv,
    Dir,
    Ma0,
    Ma1,
    Ma2,
    Ma3,
    Max,
    Min,
    Add,
    Sub,
    Mul,
    Div,
    Rez,
    Qua,
    Rad,
    Ta0,
    // K.1 to KHU
    Scale(Factor),
    // RL1 to RLC
    LimitRate(Rate),
    // IG1 to IG8
    Integrate(Divisor),
    Fix,
    Flx,
    // VZ1 to VZ8
    Delay(Divisor),
}

// What a source byte addresses.
#[derive(Clone, Copy, PartialEq, Eq, Debug)]
pub enum SourceKind {
    Reading,
    Bit,
}

// What stands in the two source bytes of a line: nothing that counts, a constant's word, one source, or two.
#[derive(Clone, Copy, PartialEq, Eq, Debug)]
pub enum Operands {
    Unused,
    Constant,
    First(SourceKind),
    Both(SourceKind, SourceKind),
}

// What load asks of a line because of its command, besides that its side has it. No Option: that nothing is asked is one of the
// answers, and each command gives one.
#[derive(Clone, Copy, PartialEq, Eq, Debug)]
pub enum Requirement {
    Nothing,
    // the line lies at 80H or above
    UpperLine,
    // the parcel brings a table
    Table,
    // the constant lies within 31984 of 0
    Range,
}

// The commands of one side, binary or analog.
pub trait Command: Copy {
    ghost decoded: { ℕ → Option Self };

    ghost idle: { Self };

    ghost printed: { Self → List ℕ };

    ghost sources: { Self → Operands };

    // The command that the code stands for on a line of this side. No TryFrom: nobody would read its error.
    fn decode(code: u8) -> Option<Self>
        ensures { result ≡ decoded code };

    fn nop() -> Self
        ensures { result ≡ idle };

    // The name as it is printed.
    fn name(self) -> &'static str
        ensures { result.now ≡ printed self };

    // What stands in the two source bytes.
    fn operands(self) -> Operands
        ensures { result ≡ sources self };

    // NOP uses neither of them.
    ghost idles: { sources idle ≡ Unused };
}
