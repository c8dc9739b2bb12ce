// A placement of greatest weight, found by prices; the lists of the search are lent by the caller.
#![tactic(auto)]

mod load;
mod moves;
pub mod place;
pub mod placed;
mod prices;
mod reach;
pub mod row;
mod search;
mod slack;
mod state;
pub mod table;
