// The result of one line, from what stands at its sources and what it holds. Numbers come as they lie in arrays: one that is no reading counts as the nearest.
ghost use Rattle.std.specs.Prelude.{◌≡◌, ℕ, true, ℤ, pos, is_some, None};
ghost use Rattle.lines.specs.Commands.{analog_view, as_bit, as_number, binary_view, divides_by, nearest, resulting, tabled};

use crate::program::Work;
use arithmetic::operate::operate;
use arithmetic::operation::Operation;
use arithmetic::switches::{Switch, select};
use arithmetic::table::interpolate;
use commands::command::{Analog, Binary};
use logic::comparing::{exceeds, exceeds_held};
use logic::gates::{Gate, latch};
use readings::reading::Reading;
use readings::word::Word;
use timing::phase::Phase;
use timing::ramp::limit_rate;

// The reading that a number is.
fn reading(number: i16) -> Reading
    ensures { result.value ≡ nearest number }
{
    Reading::nearest(i32::from(number))
}

// A bit that is given as the number 0 or 1.
fn bit(number: i16) -> bool
    ensures { result ≡ as_bit (nearest number) }
{
    number > 0
}

// What TA0 gives.
fn look_up(table: &Option<[Word; 17]>, a: Reading) -> Reading
    ensures { result.value ≡ tabled table.now a.value }
{
    match table {
        Some(words) => interpolate(words, a),
        None => Reading::nearest(0),
    }
}

// The reading that an analog line takes in this phase: a and b are what stands at its sources, own what it holds.
// An integrator or a delay, which keeps a remainder besides, is worked by `integrate` and `delay`, and holds here.
pub fn work_analog(
    work: Work<Analog>,
    table: &Option<[Word; 17]>,
    phase: Phase,
    a: i16,
    b: i16,
    own: i16,
) -> Reading
    ensures given { (m : ℤ) → divides_by work.command ≡ None → record { value = result.value; remainder = m } ≡ resulting (analog_view table.now work.command work.sources) phase.number (nearest a) (nearest b) (record { value = nearest own; remainder = m }) }
    ensures held { is_some (divides_by work.command) ≡ true → result.value ≡ nearest own }
{
    match work.command {
        Analog::Nop => reading(own),
        Analog::Flx => reading(own),
        Analog::Integrate(_) => reading(own),
        Analog::Delay(_) => reading(own),
        Analog::Sol => select(reading(a), bit(b), reading(own)),
        Analog::Sih => Switch::Sih.apply(reading(a), bit(b)),
        Analog::Sil => Switch::Sil.apply(reading(a), bit(b)),
        Analog::Szl => Switch::Szl.apply(reading(a), bit(b)),
        Analog::Szh => Switch::Szh.apply(reading(a), bit(b)),
        Analog::Abs => operate(Operation::Abs, reading(a), reading(b)),
        Analog::Inv => operate(Operation::Inv, reading(a), reading(b)),
        Analog::Fix => reading(a),
        Analog::Dir => reading(a),
        Analog::Ma0 => reading(a),
        Analog::Ma1 => reading(a),
        Analog::Ma2 => reading(a),
        Analog::Ma3 => reading(a),
        Analog::Max => operate(Operation::Max, reading(a), reading(b)),
        Analog::Min => operate(Operation::Min, reading(a), reading(b)),
        Analog::Add => operate(Operation::Add, reading(a), reading(b)),
        Analog::Sub => operate(Operation::Sub, reading(a), reading(b)),
        Analog::Mul => operate(Operation::Mul, reading(a), reading(b)),
        Analog::Div => operate(Operation::Div, reading(a), reading(b)),
        Analog::Rez => operate(Operation::Rez, reading(a), reading(b)),
        Analog::Qua => operate(Operation::Qua, reading(a), reading(b)),
        Analog::Rad => operate(Operation::Rad, reading(a), reading(b)),
        Analog::Ta0 => look_up(table, reading(a)),
        Analog::Scale(factor) => operate(Operation::Scale(factor), reading(a), reading(b)),
        Analog::LimitRate(rate) => limit_rate(rate, phase, reading(a), reading(b)),
    }
}

// A binary line: a and b are what stands at its sources, a bit as 0 or 1, and own is the bit that it holds.
pub fn work_binary(work: Work<Binary>, a: i16, b: i16, own: bool) -> bool
    ensures { (phase : ℕ) → as_number result ≡ (resulting (binary_view work.command work.sources) phase (nearest a) (nearest b) (record { value = as_number own; remainder = pos 0 })).value }
{
    match work.command {
        Binary::Nop => own,
        Binary::Btn => Gate::Copy.output(false, bit(a), bit(b)),
        Binary::Bti => Gate::Copy.output(true, bit(a), bit(b)),
        Binary::Ann => Gate::And.output(false, bit(a), bit(b)),
        Binary::Ani => Gate::And.output(true, bit(a), bit(b)),
        Binary::Ain => Gate::AndInverted.output(false, bit(a), bit(b)),
        Binary::Aii => Gate::AndInverted.output(true, bit(a), bit(b)),
        Binary::Onn => Gate::Or.output(false, bit(a), bit(b)),
        Binary::Oni => Gate::Or.output(true, bit(a), bit(b)),
        Binary::Oin => Gate::OrInverted.output(false, bit(a), bit(b)),
        Binary::Oii => Gate::OrInverted.output(true, bit(a), bit(b)),
        Binary::Xnn => Gate::Xor.output(false, bit(a), bit(b)),
        Binary::Xni => Gate::Xor.output(true, bit(a), bit(b)),
        Binary::Frs => latch(bit(a), bit(b), own),
        Binary::Cgt => exceeds(reading(a), reading(b)),
        Binary::Cgh => exceeds_held(reading(a), reading(b), own),
    }
}
