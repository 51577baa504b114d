// The sample values that every build of the controller has to give.
#![tactic(auto)]

pub mod samples;
