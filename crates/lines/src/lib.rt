// What one line does: its sources, its result, and, in specs, what a diagram, a wait and a diagram value are.
#![tactic(auto)]

pub mod facts;
pub mod program;
pub mod resolving;
pub mod source;
pub mod work;
