// What a number is here: readings in 1/160 percent, and the words that write them in a parcel.
#![tactic(auto)]

pub mod reading;
pub mod settings;
pub mod word;
