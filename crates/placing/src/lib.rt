// Where all blocks of the result are placed, over the copier, while measuring.
#![tactic(auto)]

pub mod columns;
pub mod decide;
pub mod layout;
