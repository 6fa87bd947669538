// Joined data and cells of records, laid over a window of the file.
#![tactic(auto)]

pub mod cell;
pub mod data;
pub mod stretch;
