// The time columns of two groups, compared cell by cell.
#![tactic(auto)]

mod cell;
mod head;
mod run;
pub mod times;
