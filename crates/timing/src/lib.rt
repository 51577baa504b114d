// The commands that move through time: rate limiters, integrators and delays.
#![tactic(auto)]

pub mod phase;
pub mod ramp;
pub mod remainder;
pub mod steps;
