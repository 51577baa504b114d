// A fault as a stage passes it up.
ghost use Rattle.stages.specs.Stages.{raised};
ghost use Rattle.std.specs.Prelude.{◌≡◌};

use terminals::faults::Fault;

// The fault from below, one stage further up.
pub fn raised(fault: Fault) -> Fault
    ensures { result ≡ raised fault }
{
    Fault {
        distance: fault.distance.saturating_add(1),
        ..fault
    }
}
