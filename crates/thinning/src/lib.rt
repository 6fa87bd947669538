// A file with columns taken out, written (document 02, request 13).
pub mod column;
mod data;
mod decided;
mod front;
mod led;
mod structure;
pub mod take;
mod whole;
