// Where the blocks of a file with columns taken out are placed: all that is decided before a byte is written.
pub mod decide;
mod kept;
pub mod layout;
pub mod placement;
pub mod sizes;
