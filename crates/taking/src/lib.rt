// Which columns of a column file are kept when others are taken out (document 02, request 13): what is refused before anything is placed, and the
// kept columns in words.
#![tactic(auto)]

pub mod kept;
pub mod list;
mod opened;
pub mod sound;
pub mod take;
