// The text of a listing's lines.
#![tactic(auto)]

pub mod bytes;
pub mod text;
