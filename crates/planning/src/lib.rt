// Which columns and omissions a recording gets, kept in lent words.
#![tactic(auto)]

pub mod clocks;
pub mod column;
pub mod compared;
pub mod data;
pub mod groups;
pub mod masters;
pub mod planned;
pub mod recording;
pub mod sizes;
pub mod span;
pub mod stage;
pub mod table;
pub mod timing;
pub mod words;
