// What a code byte says: the commands of both sides, and what is known of each.
#![tactic(auto)]

mod analog;
mod binary;
pub mod command;
mod settings;
