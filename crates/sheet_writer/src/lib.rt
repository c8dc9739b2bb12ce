// Writing any roll with a filing as a sheet.
#![tactic(auto)]

mod lists;
mod refusal;
mod sections;
pub mod write;
