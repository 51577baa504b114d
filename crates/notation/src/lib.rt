// How bytes and readings are written: `E2H`, `+100.0`.
#![tactic(auto)]

pub mod hex;
pub mod percent;
