// Where the records of a group lie in the joined data of its DG: stretches of records at equal distances.
#![tactic(auto)]

pub mod frame;
pub mod pass;
pub mod pool;
pub mod several;
pub mod sorted;
pub mod stretch;
