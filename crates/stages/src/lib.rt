// Stages: terminals that stand over other terminals, and stacks of them.
#![tactic(auto)]

mod choice;
pub mod faults;
pub mod rules;
pub mod stacks;
pub mod stages;
