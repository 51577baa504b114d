// The console: reads commands, carries them out and answers each.
#![tactic(auto)]

pub mod desk;
pub mod session;
