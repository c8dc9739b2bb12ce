// How a register over lent memory is opened, and what it keeps itself.
#![tactic(auto)]

pub mod numbers;
pub mod room;
