// Text for people: lines with a refusal, a count, or a trainee and a seat.
#![tactic(auto)]

pub mod lines;
pub mod put;
pub mod text;
