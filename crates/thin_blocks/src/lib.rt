// The blocks of a file that columns are taken out of (document 02, request 13), each laid over a slice that begins at the block's place. What would
// lie past the slice's end is lost.
#![tactic(auto)]

pub mod anew;
pub mod kept;
