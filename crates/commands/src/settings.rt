// The settings in the order of their codes, and the names of the commands that carry them.
ghost use Rattle.commands.specs.Properties.{delay_name, factor_name, integrator_name, rate_name};
ghost use Rattle.std.specs.Prelude.{◌≡◌};

use readings::settings::{Divisor, Factor, Rate};

// from code 58H on
pub(crate) const FACTORS: [Factor; 16] = [
    Factor::Tenth,
    Factor::Eighth,
    Factor::Fifth,
    Factor::Quarter,
    Factor::Third,
    Factor::Half,
    Factor::Times2,
    Factor::Times3,
    Factor::Times4,
    Factor::Times5,
    Factor::Times8,
    Factor::Times10,
    Factor::Times20,
    Factor::Times40,
    Factor::Times50,
    Factor::Times100,
];

// from code 68H on
pub(crate) const RATES: [Rate; 12] = [
    Rate::T2,
    Rate::T4,
    Rate::T8,
    Rate::T16,
    Rate::T50,
    Rate::T100,
    Rate::T200,
    Rate::T400,
    Rate::T1000,
    Rate::T2000,
    Rate::T4000,
    Rate::T8000,
];

// from code 74H on in integrators, from A7H on in delays
pub(crate) const DIVISORS: [Divisor; 8] = [
    Divisor::D10,
    Divisor::D40,
    Divisor::D100,
    Divisor::D250,
    Divisor::D1200,
    Divisor::D4800,
    Divisor::D12000,
    Divisor::D30000,
];

pub(crate) fn factor_name(factor: Factor) -> &'static str
    ensures { result.now ≡ factor_name factor }
{
    match factor {
        Factor::Tenth => "K.1",
        Factor::Eighth => "K/8",
        Factor::Fifth => "K/5",
        Factor::Quarter => "K/4",
        Factor::Third => "K/3",
        Factor::Half => "K/2",
        Factor::Times2 => "K02",
        Factor::Times3 => "K03",
        Factor::Times4 => "K04",
        Factor::Times5 => "K05",
        Factor::Times8 => "K08",
        Factor::Times10 => "K10",
        Factor::Times20 => "K20",
        Factor::Times40 => "K40",
        Factor::Times50 => "K50",
        Factor::Times100 => "KHU",
    }
}

pub(crate) fn rate_name(rate: Rate) -> &'static str
    ensures { result.now ≡ rate_name rate }
{
    match rate {
        Rate::T2 => "RL1",
        Rate::T4 => "RL2",
        Rate::T8 => "RL3",
        Rate::T16 => "RL4",
        Rate::T50 => "RL5",
        Rate::T100 => "RL6",
        Rate::T200 => "RL7",
        Rate::T400 => "RL8",
        Rate::T1000 => "RL9",
        Rate::T2000 => "RLA",
        Rate::T4000 => "RLB",
        Rate::T8000 => "RLC",
    }
}

// The names of the integrator and of the delay that divide by it.
pub(crate) fn divisor_names(divisor: Divisor) -> (&'static str, &'static str)
    ensures integrator { result.0.now ≡ integrator_name divisor }
    ensures delay { result.1.now ≡ delay_name divisor }
{
    match divisor {
        Divisor::D10 => ("IG1", "VZ1"),
        Divisor::D40 => ("IG2", "VZ2"),
        Divisor::D100 => ("IG3", "VZ3"),
        Divisor::D250 => ("IG4", "VZ4"),
        Divisor::D1200 => ("IG5", "VZ5"),
        Divisor::D4800 => ("IG6", "VZ6"),
        Divisor::D12000 => ("IG7", "VZ7"),
        Divisor::D30000 => ("IG8", "VZ8"),
    }
}
