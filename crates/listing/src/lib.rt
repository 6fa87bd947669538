// The listing that the program `columns` prints, laid over a lent slice. What would lie past the slice's end is lost.
pub mod lines;
pub mod recording;
pub mod text;
