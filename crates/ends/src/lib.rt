// The ends: terminals with nothing below them, a bench and a plant.
#![tactic(auto)]

pub mod bench;
mod numbers;
mod panel;
pub mod plant;
