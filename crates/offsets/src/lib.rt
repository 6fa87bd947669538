// Where each record of the groups of a DG lies in the joined data, found in one framing and kept in lent words of any length.
#![tactic(auto)]

pub mod fill;
pub mod kept;
mod note;
mod parts;
