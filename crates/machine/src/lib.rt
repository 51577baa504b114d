// What one cycle does to all lines, and what load, recall and adjustments do.
#![tactic(auto)]

mod fetch;
mod flexible;
pub mod machine;
pub mod outputs;
pub mod refusal;
pub mod sample;
pub mod state;
mod sweep;
mod values;
mod work;
