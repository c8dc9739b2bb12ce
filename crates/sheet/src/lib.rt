// The sheet: checking bytes, and opening them as a roll with a filing.
#![tactic(auto)]

pub mod check;
mod counts;
pub mod numbers;
pub mod open_sheet;
pub mod opening;
mod reading;
mod sections;
mod unread;
