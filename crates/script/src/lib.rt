// What the console's commands say, and the bytes of each answer.
#![tactic(auto)]

pub mod command;
pub mod complaint;
pub mod parsing;
pub mod reply;
