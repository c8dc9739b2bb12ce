// A register over lent rows: a trainee's list in each.
#![tactic(auto)]

pub mod row;
pub mod table;
mod written;
