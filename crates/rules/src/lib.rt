// The words, the meaning of a roll and of a register, and the refusals that all layers share.
#![tactic(auto)]

pub mod entry;
pub mod found;
pub mod lent;
pub mod register;
pub mod roll;
pub mod terms;
pub mod words;
