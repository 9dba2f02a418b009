// The rows that a replacement, its asking and its commit share.
#![tactic(auto)]

pub mod checks;
