// Damaged sheets, sheets that are written back, and the greatest sheet.
#![tactic(auto)]

#[cfg(test)]
mod damaged;
#[cfg(test)]
mod greatest;
#[cfg(test)]
mod written;
