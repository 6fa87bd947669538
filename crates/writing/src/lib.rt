// The result written: identification, HD, MD and FH; copied blocks and attachments; the DG, CG, CN and DL of every column; data and signal data.
pub mod begin;
pub mod convert;
mod counts;
pub mod data;
pub mod file;
mod front;
pub mod omissions;
pub mod own;
pub mod placed;
mod signal;
mod structure;
