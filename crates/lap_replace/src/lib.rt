// The replacement of one lap of a fitted file.
#![tactic(auto)]

pub mod replace;
