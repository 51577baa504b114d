// The table and the switches.
use arithmetic::switches::{Switch, select};
use arithmetic::table::interpolate;
use readings::reading::Reading;
use readings::word::Word;

// Low and high bytes of the points.
const POINTS: [(u8, u8); 17] = [
    (0x64, 0x80),
    (0x00, 0x80),
    (0x00, 0x80),
    (0xA0, 0x8F),
    (0x88, 0x93),
    (0xFF, 0x7F),
    (0xFF, 0xFF),
    (0x00, 0x80),
    (0x00, 0x80),
    (0x00, 0x80),
    (0x00, 0x80),
    (0x00, 0x80),
    (0x00, 0x80),
    (0x00, 0x80),
    (0x00, 0x80),
    (0xF0, 0xFC),
    (0x80, 0x3E),
];

const INPUTS: [(i32, i32); 17] = [
    (-32767, 100),
    (-1, 100),
    (0, 100),
    (1, 100),
    (1023, 1),
    (1024, 0),
    (3584, 4500),
    (4096, 5000),
    (5119, -32730),
    (5120, -32767),
    (5121, -32704),
    (6143, 32703),
    (6144, 32767),
    (15360, 31984),
    (16383, -15953),
    (16384, -16000),
    (32767, -16000),
];

#[test]
fn points_and_between(rt: HostRuntime) {
    let words = POINTS.map(|(low, high)| Word { low, high });
    for (input, expected) in INPUTS {
        assert_eq!(rt;
            interpolate(&words, Reading::nearest(input)).value(),
            expected
        );
    }
}

#[test]
fn switches(rt: HostRuntime) {
    for (kind, at_0, at_1) in [
        (Switch::Sih, -32767, 32767),
        (Switch::Sil, 32767, -32767),
        (Switch::Szl, 0, -32767),
        (Switch::Szh, -32767, 0),
    ] {
        let a = Reading::nearest(-32767);
        assert_eq!(rt; kind.apply(a, false).value(), at_0);
        assert_eq!(rt; kind.apply(a, true).value(), at_1);
    }
    let a = Reading::nearest(5);
    let own = Reading::nearest(-7);
    assert_eq!(rt; select(a, false, own).value(), -7);
    assert_eq!(rt; select(a, true, own).value(), 5);
}
