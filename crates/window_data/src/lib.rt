// The data blocks of a column over a window, which begins at an index of them.
#![tactic(auto)]

pub mod column;
pub mod kept;
pub mod piece;
pub mod several;
pub mod signal;
pub mod sorted;
