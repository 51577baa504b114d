// Examples of the terminals: ends, stages and stacks of them.
#![tactic(auto)]

#[cfg(test)]
mod end_terminals;
#[cfg(test)]
mod given;
#[cfg(test)]
mod stacked;
