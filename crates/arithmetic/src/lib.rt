// The commands that compute a reading from readings and bits, with nothing to remember.
#![tactic(auto)]

mod fraction;
pub mod operate;
pub mod operation;
mod quotients;
pub mod switches;
pub mod table;
