// What the console has done so far, and its report.
#![tactic(auto)]

pub mod journal;
