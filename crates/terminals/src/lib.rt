// What stands at the process: the interface that every kind of terminals keeps, and the exchange of one cycle over any of them.
#![tactic(auto)]

pub mod exchange;
pub mod faults;
pub mod frames;
pub mod framing;
pub mod interface;
pub mod outputs;
pub mod scan;
