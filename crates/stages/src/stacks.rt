// Stacks of two stages over either end: what their links report, and how far a fault climbs.
ghost use Rattle.std.specs.Prelude.{◌≡◌, ◌+◌, min, Ok};
ghost use Rattle.ends.specs.Benches.{bench_link};
ghost use Rattle.ends.specs.Plants.{plant_inputs};
ghost use Rattle.stages.specs.Stacks.{DistanceLaw};
ghost use Rattle.stages.specs.Stages.{floored, passed_link, watched_link};

use crate::stages::{Floor, Watch};
use ends::bench::Bench;
use ends::plant::Plant;
use terminals::faults::Fault;
use terminals::interface::Terminals;

// The watch sees the bench's own inputs, and its fault climbs one stage.
pub fn floor_over_watch(floor: &Floor<Watch<Bench>>) -> Result<(), Fault>
    ensures { result ≡ passed_link (watched_link floor.now.below.rule.chosen.0 floor.now.below.below.shown.inputs (bench_link floor.now.below.below.shown.cause)) }
{
    floor.link()
}

// The watch sees the floored inputs, and its fault has climbed no stage.
pub fn watch_over_floor(watch: &Watch<Floor<Bench>>) -> Result<(), Fault>
    ensures { result ≡ watched_link watch.now.rule.chosen.0 (floored watch.now.below.rule.chosen.0 0 watch.now.below.below.shown.inputs) (passed_link (bench_link watch.now.below.below.shown.cause)) }
{
    watch.link()
}

// The lower watch's fault comes first.
pub fn watch_over_watch(watches: &Watch<Watch<Plant>>) -> Result<(), Fault>
    ensures { result ≡ watched_link watches.now.rule.chosen.0 (plant_inputs watches.now.below.below.level.value) (watched_link watches.now.below.rule.chosen.0 (plant_inputs watches.now.below.below.level.value) (Ok tt)) }
{
    watches.link()
}

// The distance that a fault has once it has climbed so many stages.
pub fn distance_through(fault: Fault, stages: u8) -> u8
    ensures distance { result ≡ min (fault.distance + stages) 255 }
    ensures law { DistanceLaw }
{
    fault.distance.saturating_add(stages)
}
