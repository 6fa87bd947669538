// The data blocks of a column, written whole: the records of its group, found in stretches of the joined data.
#![tactic(auto)]

pub mod by;
pub mod column;
mod listed;
pub mod piece;
pub mod total;
