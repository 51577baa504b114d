// The listing of a configuration as rows of text.
#![tactic(auto)]

mod operand;
pub mod rows;
