// Look first, then store: the asking for a lap's replacement, and its commit.
#![tactic(auto)]

pub mod session;
