// Registers over lent memory and piles of layers, as a caller has them.
#![tactic(auto)]

#[cfg(test)]
mod asked;
pub mod memory;
#[cfg(test)]
mod piles;
#[cfg(test)]
mod registers;
