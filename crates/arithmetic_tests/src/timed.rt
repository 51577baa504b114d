// Rate limiters, integrators and delays at their edges.
use readings::reading::Reading;
use readings::settings::{Divisor, Rate};
use std::process::Abort;
use std::test::Fail;
use timing::phase::Phase;
use timing::ramp::{allowance, limit_rate};
use timing::remainder::Remainder;
use timing::steps::{Step, delay, integrate};

// Divisor, input, value, remainder; then the new value and remainder.
type Example = (Divisor, i32, i32, i32, i32, i32);

// The allowances at the phases 0 to 4.
const ALLOWANCES: [(Rate, [u32; 5]); 12] = [
    (Rate::T2, [800, 800, 800, 800, 800]),
    (Rate::T4, [400, 400, 400, 400, 400]),
    (Rate::T8, [200, 200, 200, 200, 200]),
    (Rate::T16, [100, 100, 100, 100, 100]),
    (Rate::T50, [32, 32, 32, 32, 32]),
    (Rate::T100, [16, 16, 16, 16, 16]),
    (Rate::T200, [8, 8, 8, 8, 8]),
    (Rate::T400, [4, 4, 4, 4, 4]),
    (Rate::T1000, [1, 2, 1, 2, 2]),
    (Rate::T2000, [0, 1, 1, 1, 1]),
    (Rate::T4000, [0, 0, 1, 0, 1]),
    (Rate::T8000, [0, 0, 0, 0, 1]),
];

#[test]
fn allowances(rt: HostRuntime) {
    for (rate, expected) in ALLOWANCES {
        let mut phase = Phase::first();
        for n in expected {
            assert_eq!(rt; allowance(rate, phase), n);
            phase = phase.next();
        }
        assert_eq!(rt; phase.number(), 0);
    }
}

// a, b and the result of RL9 at phase 4, whose allowance is 2.
#[test]
fn ramps(rt: HostRuntime) {
    let phase = Phase::first().next().next().next().next();
    for (a, b, expected) in [
        (0, 0, 0),
        (1, 0, 1),
        (2, 0, 2),
        (3, 0, 2),
        (-3, 0, -2),
        (-32767, 32767, 32765),
        (32767, 32766, 32767),
        (-32767, -32766, -32767),
    ] {
        let moved = limit_rate(Rate::T1000, phase, Reading::nearest(a), Reading::nearest(b));
        assert_eq!(rt; moved.value(), expected);
    }
}

fn agree<F: Fn(Reading, Reading, Remainder) -> Step>(
    rt: &impl Abort,
    step: F,
    examples: &[Example],
) -> Result<(), Fail>
    requires { F.IsAlwaysCallable step }
{
    for (divisor, a, b, m, value, left) in examples {
        let Some(m) = Remainder::new(*divisor, *m) else {
            return Err(Fail::new("no remainder"));
        };
        let Step { reading, remainder } = step(Reading::nearest(*a), Reading::nearest(*b), m);
        assert_eq!(rt; (reading.value(), remainder.value()), (*value, *left));
    }
    Ok(())
}

#[test]
fn integrators(rt: HostRuntime) -> Result<(), Fail> {
    agree(
        &rt,
        integrate,
        &[
            (Divisor::D10, 7, 0, 0, 0, 7),
            (Divisor::D10, 9, 0, 0, 0, 9),
            (Divisor::D10, 10, 5, 0, 6, 0),
            (Divisor::D10, -32767, -31984, -9, -31984, 0),
            (Divisor::D10, 32767, 31984, 9, 31984, 0),
            (Divisor::D10, 1, 31984, 9, 31984, 0),
            (Divisor::D10, 0, 32767, 0, 31984, 0),
            (Divisor::D10, -1, -31984, 0, -31984, -1),
            (Divisor::D250, 7, 0, 0, 0, 7),
            (Divisor::D250, 249, 0, 0, 0, 249),
            (Divisor::D250, 250, 5, 0, 6, 0),
            (Divisor::D250, -32767, -31984, -249, -31984, 0),
            (Divisor::D250, 32767, 31984, 249, 31984, 0),
            (Divisor::D250, 1, 31984, 249, 31984, 0),
            (Divisor::D250, 0, 32767, 0, 31984, 0),
            (Divisor::D250, -1, -31984, 0, -31984, -1),
            (Divisor::D30000, 7, 0, 0, 0, 7),
            (Divisor::D30000, 29999, 0, 0, 0, 29999),
            (Divisor::D30000, 30000, 5, 0, 6, 0),
            (Divisor::D30000, -32767, -31984, -29999, -31984, 0),
            (Divisor::D30000, 32767, 31984, 29999, 31984, 0),
            (Divisor::D30000, 1, 31984, 29999, 31984, 0),
            (Divisor::D30000, 0, 32767, 0, 31984, 0),
            (Divisor::D30000, -1, -31984, 0, -31984, -1),
        ],
    )
}

#[test]
fn delays(rt: HostRuntime) -> Result<(), Fail> {
    agree(
        &rt,
        delay,
        &[
            (Divisor::D10, 16000, 0, 0, 1600, 0),
            (Divisor::D10, 5, 5, 9, 5, 9),
            (Divisor::D10, 32767, -32767, 9, -26213, 3),
            (Divisor::D10, -32767, 32767, -9, 26213, -3),
            (Divisor::D10, 0, 1, 0, 1, -1),
            (Divisor::D10, 1, 0, 9, 1, 0),
            (Divisor::D250, 16000, 0, 0, 64, 0),
            (Divisor::D250, 5, 5, 249, 5, 249),
            (Divisor::D250, 32767, -32767, 249, -32504, 33),
            (Divisor::D250, -32767, 32767, -249, 32504, -33),
            (Divisor::D250, 0, 1, 0, 1, -1),
            (Divisor::D250, 1, 0, 249, 1, 0),
            (Divisor::D30000, 16000, 0, 0, 0, 16000),
            (Divisor::D30000, 5, 5, 29999, 5, 29999),
            (Divisor::D30000, 32767, -32767, 29999, -32764, 5533),
            (Divisor::D30000, -32767, 32767, -29999, 32764, -5533),
            (Divisor::D30000, 0, 1, 0, 1, -1),
            (Divisor::D30000, 1, 0, 29999, 1, 0),
        ],
    )
}

#[test]
fn remainders(rt: HostRuntime) {
    for (value, there) in [
        (0, true),
        (9, true),
        (10, false),
        (-9, true),
        (-10, false),
        (-40000, false),
    ] {
        assert_eq!(rt; Remainder::new(Divisor::D10, value).is_some(), there);
    }
    assert_eq!(rt; Remainder::zero(Divisor::D40).value(), 0);
}
