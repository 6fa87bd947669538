// Which metadata blocks are copied, and where their copies and the attachments are placed: for any limit of copied
// blocks up to 2,050, and images up to 128 TiB.
#![tactic(auto)]

pub mod attachments;
pub mod columns;
pub mod copies;
pub mod history;
pub mod memo;
pub mod roots;
