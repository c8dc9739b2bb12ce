// Allot and challenge on any roll.
#![tactic(auto)]

mod by_ballots;
mod by_firsts;
pub mod bytes;
pub mod calls;
mod challenging;
mod filling;
mod finding;
mod fits;
pub mod found;
mod lists;
mod load;
mod reading;
mod weights;
