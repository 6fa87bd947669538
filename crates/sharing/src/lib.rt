// One clock for many groups: whether two masters have one key, and what is checked before they are compared.
#![tactic(auto)]

pub mod bytes;
pub mod key;
pub mod stream;
pub mod text;
