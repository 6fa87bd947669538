// What a layout copies, written: copied blocks and attachments, each at its place, zeros between them; references to attachments.
#![tactic(auto)]

pub mod attached;
pub mod copies;
pub mod gap;
pub mod led;
