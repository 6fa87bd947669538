// Reading a recording: the walk over its blocks, then the counts of its records.
#![tactic(auto)]

pub mod answer;
pub mod recording;
