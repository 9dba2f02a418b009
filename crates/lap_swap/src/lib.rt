// A fitted file with one lap replaced.
#![tactic(auto)]

pub mod swap;
