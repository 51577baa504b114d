// Examples of parcels at the edges of each question, of trials, and of a listing.
#![tactic(auto)]

#[cfg(test)]
mod build;
#[cfg(test)]
mod contents;
#[cfg(test)]
mod lines;
#[cfg(test)]
mod trials;
