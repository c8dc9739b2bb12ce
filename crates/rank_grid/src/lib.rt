// A register over lent cells: the rank of each practice on each trainee's list.
#![tactic(auto)]

pub mod grid;
mod runs;
