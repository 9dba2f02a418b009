// The bytes of a lap file: whole numbers and floats, the lowest byte first, and commands of 73 bytes each.
#![tactic(auto)]

pub mod command;
pub mod words;
