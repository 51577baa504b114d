// Examples of every command's arithmetic at its edges.
#![tactic(auto)]

#[cfg(test)]
mod binary;
#[cfg(test)]
mod operations;
#[cfg(test)]
mod tables;
#[cfg(test)]
mod timed;
