// Reports of a sheet, as text in a caller's buffer.
#![tactic(auto)]

pub mod challenge;
mod hand_over;
pub mod report;
mod seats;
