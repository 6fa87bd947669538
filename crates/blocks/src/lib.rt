// A block of the image: its fields, its checks, a name.
#![tactic(auto)]

pub mod block;
pub mod name;
