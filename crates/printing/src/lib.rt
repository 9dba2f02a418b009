// What the programs print, and read: the input of `lapfit`, the rest of a long input, and the bytes of an answer.
#![tactic(auto)]

pub mod input;
pub mod program;
pub mod rest;
