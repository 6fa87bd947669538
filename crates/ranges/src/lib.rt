// Records of one column of a column file, and of many in one call (document 02, requests 1 and 2).
#![tactic(auto)]

pub mod block;
pub mod form;
pub mod open;
pub mod plot;
pub mod range;
pub mod read;
pub mod seek;
