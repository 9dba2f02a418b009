// The fit of a lap file.
#![tactic(auto)]

pub mod fit;
