// Stacks of stages.
use crate::given::signals;
use ends::bench::Bench;
use ends::plant::Plant;
use stages::stacks::{distance_through, floor_over_watch, watch_over_floor, watch_over_watch};
use stages::stages::{Floor, Watch};
use std::test::Fail;
use terminals::exchange::{exchange, take};
use terminals::faults::{Fault, PutRefusal};
use terminals::frames::Frame;
use terminals::framing::Framed;
use terminals::interface::Terminals;

fn frame(second: i32, cause: u32) -> Frame {
    Frame {
        inputs: [-1, second, -2000, 0, 0, 0, 0, 0],
        bits: 3,
        cause,
    }
}

fn fault(cause: u8, input: Option<u8>, distance: u8) -> Result<(), Fault> {
    Err(Fault {
        cause,
        input,
        distance,
    })
}

// The watch chooses inputs 1 and 2, the floor input 1.
#[test]
fn a_floor_over_a_watch(rt: HostRuntime) -> Result<(), Fail> {
    let mut stack = Floor::new(Watch::new(Bench::new(), 0b011), 0b001);
    stack.frame(frame(-1600, 0))?;
    let seen = exchange(&mut stack, signals(800, 0, 8191))?;
    assert_eq!(rt;
        (seen.inputs[0], seen.inputs[1], seen.inputs[2]),
        (0, -1600, -2000)
    );
    stack.frame(frame(-1601, 0))?;
    stack.sample();
    assert_eq!(rt; floor_over_watch(&stack), fault(100, Some(2), 1));
    let down = Fault {
        cause: 100,
        input: Some(2),
        distance: 1,
    };
    assert_eq!(rt;
        stack.put(signals(0, 0, 8191)),
        Err(PutRefusal::LinkDown(down))
    );
    assert_eq!(rt;
        stack.put(signals(0, 0, 8192)),
        Err(PutRefusal::DigitalOver)
    );
    stack.frame(frame(-1601, 99))?;
    assert!(rt; take(&mut stack).is_err());
    assert_eq!(rt; stack.link(), fault(99, None, 2));
    assert_eq!(rt; stack.outputs().first.value(), 800);
    assert_eq!(rt; stack.tally(), 3);
    Ok(())
}

// A watch over a floor sees the floored inputs, so it finds nothing where both chose.
#[test]
fn a_watch_over_a_floor(rt: HostRuntime) -> Result<(), Fail> {
    let mut stack = Watch::new(Floor::new(Bench::new(), 0b010), 0b110);
    stack.frame(frame(-32767, 0))?;
    stack.sample();
    assert_eq!(rt; watch_over_floor(&stack), fault(100, Some(3), 0));
    stack.frame(frame(-32767, 7))?;
    stack.sample();
    assert_eq!(rt; watch_over_floor(&stack), fault(7, None, 2));
    let mut same = Watch::new(Floor::new(Bench::new(), 0b110), 0b110);
    same.frame(frame(-32767, 0))?;
    same.sample();
    assert_eq!(rt; same.link(), Ok(()));
    Ok(())
}

#[test]
fn faults_climb(rt: HostRuntime) {
    for (distance, stages, expected) in [
        (0, 0, 0),
        (0, 2, 2),
        (1, 254, 255),
        (200, 200, 255),
        (255, 1, 255),
    ] {
        let low = Fault {
            cause: 7,
            input: Some(3),
            distance,
        };
        assert_eq!(rt; distance_through(low, stages), expected);
    }
}

// The lower watch's fault comes first, one stage further up.
#[test]
fn two_watches_over_a_plant(rt: HostRuntime) -> Result<(), Fail> {
    let mut stack = Watch::new(Watch::new(Plant::new(), 0b1), 0b1);
    stack.put(signals(-25616, 0, 0))?;
    stack.sample();
    assert_eq!(rt; stack.input(1).is_ok(), true);
    assert_eq!(rt; watch_over_watch(&stack), fault(100, Some(1), 1));
    let mut upper = Watch::new(Watch::new(Plant::new(), 0b0), 0b1);
    upper.put(signals(-25600, 0, 0))?;
    upper.sample();
    assert_eq!(rt; watch_over_watch(&upper), Ok(()));
    upper.sample();
    assert_eq!(rt; watch_over_watch(&upper), fault(100, Some(1), 0));
    Ok(())
}
