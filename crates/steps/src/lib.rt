// A conversion in steps (document 02, request 11): begun, then a store of 1 to 4,096 bytes a step; positions are named and returned to.
#![tactic(auto)]

pub mod begin;
pub mod conversion;
pub mod position;
mod span;
pub mod step;
mod store;
