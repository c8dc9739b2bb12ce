// The table of seats, the round over any register, and the account of a script of calls.
#![tactic(auto)]

pub mod calls;
mod makes;
mod notes;
pub mod rooms;
pub mod rounds;
pub mod script;
pub mod serving;
pub mod table;
pub mod theorems;
