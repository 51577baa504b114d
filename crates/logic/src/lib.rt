// The commands of binary lines: gates, the latch and the comparators.
#![tactic(auto)]

pub mod comparing;
pub mod gates;
