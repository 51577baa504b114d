// What a parcel says: its contents list, load's questions, the configuration and trial changes.
#![tactic(auto)]

mod bodies;
pub mod configuration;
mod contents;
pub mod line;
mod lines;
pub mod questions;
pub mod refusal;
pub mod trial;
