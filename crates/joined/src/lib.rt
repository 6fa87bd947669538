// A place in the joined data of fragments.
#![tactic(auto)]

pub mod cursor;
pub mod spot;
