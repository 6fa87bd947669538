// The records of one data group: its groups' fields, its fragments, whole records, framing and counts.
#![tactic(auto)]

pub mod fragment;
pub mod framing;
pub mod group;
pub mod several;
pub mod sorted;
pub mod table;
