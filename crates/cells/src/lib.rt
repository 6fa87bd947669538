// The cells of records at given places of the joined data.
#![tactic(auto)]

pub mod cell;
pub mod gathered;
pub mod run;
mod strided;
