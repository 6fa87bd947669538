// A data chain: what stands at an address of it, and its walk.
#![tactic(auto)]

pub mod chain;
pub mod node;
