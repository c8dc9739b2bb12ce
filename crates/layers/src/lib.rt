// Layers on a register: lists cut short, and practices closed.
#![tactic(auto)]

pub mod closed;
pub mod short;
