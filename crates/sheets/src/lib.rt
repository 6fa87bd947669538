// The inventory sheet of a column file (document 02, request 10), laid over a lent slice. What would lie past the slice's end is lost.
#![tactic(auto)]

pub mod column_file;
pub mod field;
pub mod line;
pub mod name;
pub mod page;
