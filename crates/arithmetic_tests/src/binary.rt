// Gates, the latch and the comparators.
use logic::comparing::{exceeds, exceeds_held};
use logic::gates::{Gate, latch};
use readings::reading::Reading;

// What a gate gives at (a, b) = (0, 0), (0, 1), (1, 0), (1, 1).
const GATES: [(Gate, [bool; 4]); 6] = [
    (Gate::And, [false, false, false, true]),
    (Gate::AndInverted, [false, true, false, false]),
    (Gate::Or, [false, true, true, true]),
    (Gate::OrInverted, [true, true, false, true]),
    (Gate::Xor, [false, true, true, false]),
    (Gate::Copy, [false, false, true, true]),
];

#[test]
fn gates(rt: HostRuntime) {
    for (gate, [none, second, first, both]) in GATES {
        for (a, b, plain) in [
            (false, false, none),
            (false, true, second),
            (true, false, first),
            (true, true, both),
        ] {
            assert_eq!(rt; gate.output(false, a, b), plain);
            assert_eq!(rt; gate.output(true, a, b), !plain);
        }
    }
}

#[test]
fn latches(rt: HostRuntime) {
    for (a, b, own, expected) in [
        (false, false, false, false),
        (false, false, true, true),
        (true, false, false, true),
        (true, false, true, true),
        (false, true, true, false),
        (true, true, true, false),
        (true, true, false, false),
    ] {
        assert_eq!(rt; latch(a, b, own), expected);
    }
}

// a, b, whether a exceeds b, and what the comparator with hysteresis gives where it was off and where it was on.
#[test]
fn comparators(rt: HostRuntime) {
    for (a, b, above, was_off, was_on) in [
        (0, 0, false, false, true),
        (1, 0, true, true, true),
        (-80, 0, false, false, true),
        (-81, 0, false, false, false),
        (-32767, -32767, false, false, true),
        (-32767, -32686, false, false, false),
        (32767, -32767, true, true, true),
    ] {
        let a = Reading::nearest(a);
        let b = Reading::nearest(b);
        assert_eq!(rt; exceeds(a, b), above);
        assert_eq!(rt; exceeds_held(a, b, false), was_off);
        assert_eq!(rt; exceeds_held(a, b, true), was_on);
    }
}
