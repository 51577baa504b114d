// The bench and the plant.
use crate::given::signals;
use ends::bench::Bench;
use ends::plant::Plant;
use std::test::Fail;
use terminals::exchange::exchange;
use terminals::faults::{Fault, PutRefusal};
use terminals::frames::{Frame, FrameRefusal};
use terminals::framing::Framed;
use terminals::interface::Terminals;

fn frame(input: i32, bits: u32, cause: u32) -> Frame {
    Frame {
        inputs: [0, 0, 0, 0, 0, 0, 0, input],
        bits,
        cause,
    }
}

#[test]
fn frames_are_asked_in_order(rt: HostRuntime) {
    for (input, bits, cause, refusal) in [
        (32767, 511, 99, None),
        (-32767, 0, 0, None),
        (32768, 512, 100, Some(FrameRefusal::NotReadings)),
        (-32768, 0, 0, Some(FrameRefusal::NotReadings)),
        (2147483647, 0, 0, Some(FrameRefusal::NotReadings)),
        (0, 512, 100, Some(FrameRefusal::BitsOver)),
        (0, 4294967295, 0, Some(FrameRefusal::BitsOver)),
        (0, 511, 100, Some(FrameRefusal::CauseOver)),
        (0, 0, 256, Some(FrameRefusal::CauseOver)),
    ] {
        let mut bench = Bench::new();
        assert_eq!(rt; bench.frame(frame(input, bits, cause)).err(), refusal);
    }
}

// What is shown follows the sample, not the frame; a refused frame leaves the last one.
#[test]
fn a_bench_shows_its_last_frame(rt: HostRuntime) -> Result<(), Fail> {
    let mut bench = Bench::new();
    bench.frame(frame(-5, 3, 42))?;
    assert_eq!(rt; bench.input(8)?.value(), 0);
    assert_eq!(rt; bench.link(), Ok(()));
    assert!(rt; bench.frame(frame(7, 600, 0)).is_err());
    bench.sample();
    assert_eq!(rt; bench.input(8)?.value(), -5);
    assert_eq!(rt; bench.bits(), 3);
    let down = Fault {
        cause: 42,
        input: None,
        distance: 0,
    };
    assert_eq!(rt; bench.link(), Err(down));
    assert!(rt; bench.input(0).is_err());
    assert!(rt; bench.input(9).is_err());
    assert_eq!(rt;
        bench.put(signals(0, 0, 8192)),
        Err(PutRefusal::DigitalOver)
    );
    assert_eq!(rt;
        bench.put(signals(0, 0, 8191)),
        Err(PutRefusal::LinkDown(down))
    );
    Ok(())
}

#[test]
fn a_put_stays_and_the_tally_goes_round(rt: HostRuntime) -> Result<(), Fail> {
    let mut bench = Bench::new();
    bench.put(signals(-32767, 32767, 8191))?;
    for _ in 0..255 {
        bench.sample();
    }
    assert_eq!(rt; bench.tally(), 255);
    bench.sample();
    assert_eq!(rt; bench.tally(), 0);
    let outputs = bench.outputs();
    assert_eq!(rt; outputs.first.value(), -32767);
    assert_eq!(rt; outputs.second.value(), 32767);
    assert_eq!(rt; outputs.digital, 8191);
    Ok(())
}

// Input 1 moves by a sixteenth of the way, cut toward zero, and stops up to 15 short.
#[test]
fn a_plant_follows_its_output(rt: HostRuntime) -> Result<(), Fail> {
    for (output, first, second) in [
        (0, 0, 0),
        (15, 0, 0),
        (16, 1, 1),
        (-31, -1, -2),
        (32767, 2047, 3967),
    ] {
        let mut plant = Plant::new();
        plant.put(signals(output, 1, 0))?;
        plant.sample();
        assert_eq!(rt; plant.input(1)?.value(), first);
        let seen = exchange(&mut plant, signals(output, 1, 0))?;
        assert_eq!(rt; i32::from(seen.inputs[0]), second);
        assert_eq!(rt; seen.inputs[1], 0);
        assert_eq!(rt; plant.tally(), 2);
    }
    Ok(())
}
